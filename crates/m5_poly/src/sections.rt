//! The sections of a text, and its generic declarations.

ghost use Rattle.std.specs.Prelude.{◌≡◌, map, slice_get};
ghost use Rattle.std.specs.Option.{option_map};
ghost use Rattle.m5_poly.specs.Survey.{names_of};
ghost use Rattle.m5_poly.specs.Walk.{arity, generic_used};
ghost use Rattle.m5_poly.specs.code.Views.{scope_of, bracketed_of, generic_of};

use crate::item::Item;
use crate::name::Name;
use crate::names::Names;
use crate::uses::{Bracketed, Scope, count_of};
use std::marker::Model;

/// A generic declaration: its `fun`, its variables, a `~` or nothing, its name, and what follows that.
#[derive(Drop)]
pub(crate) struct Generic<'a, 't> {
    pub(crate) mark: &'a [Item<'t>],
    pub(crate) variables: Names,
    pub(crate) tilde: &'a [Item<'t>],
    pub(crate) own: &'a Item<'t>,
    pub(crate) name: Name<'t>,
    pub(crate) rest: &'a [Item<'t>],
}

/// A text: its sections in order, none in place of a generic declaration that has a name, and these declarations, each
/// found by its name.
#[derive(Drop)]
pub(crate) struct Sections<'a, 't> {
    sections: Vec<Option<&'a [Item<'t>]>>,
    generics: Vec<Generic<'a, 't>>,
    names: Names,
}

impl<'a, 't> Model for Sections<'a, 't> {
    ghost use Rattle.std.specs.Prelude.{◌≡◌, map};
    ghost use Rattle.std.specs.Option.{option_map};
    ghost use Rattle.m5_poly.specs.Survey.{Sections as SectionsAs, names_of};
    ghost use Rattle.m5_poly.specs.code.Views.{generic_of};

    ghost Value = { SectionsAs };

    ghost view = { λ s. record { sections = map (λ o. option_map (λ t. t.now) o) s.sections.items; generics = map generic_of s.generics.items } };

    ghost invariant = { λ s. s.names ≡ names_of (map generic_of s.generics.items) };
}

impl<'a, 't> Sections<'a, 't> {
    /// Sections, and the generic declarations among them with their names.
    pub(crate) fn of(
        sections: Vec<Option<&'a [Item<'t>]>>,
        generics: Vec<Generic<'a, 't>>,
        names: Names,
    ) -> Sections<'a, 't>
        requires { names ≡ names_of (map generic_of generics.items) }
        ensures { result ≡ record { sections = map (λ o. option_map (λ t. t.now) o) sections.entry.items; generics = map generic_of generics.entry.items } }
    {
        Sections {
            sections,
            generics,
            names,
        }
    }

    /// The sections in order.
    pub(crate) fn sections(&self) -> &[Option<&'a [Item<'t>]>]
        ensures { map (λ o. option_map (λ t. t.now) o) result.now ≡ self.now.sections }
    {
        self.sections.as_slice()
    }

    /// The generic declaration with a number, from 0.
    pub(crate) fn generic(&self, number: usize) -> Option<&Generic<'a, 't>>
        ensures { option_map (λ g. generic_of g.now) result ≡ slice_get self.now.generics number }
    {
        self.generics.get(number)
    }

    /// How many variables the generic declaration with a number has.
    fn arity(&self, number: usize) -> usize
        ensures { result ≡ arity (slice_get self.now.generics number) }
    {
        match self.generics.get(number) {
            Some(generic) => generic.variables.count(),
            None => 0,
        }
    }

    /// The generic declaration, among those that may be used in this scope, that a use names with as many arguments as it
    /// has variables.
    pub(crate) fn used(&self, scope: &Scope, found: &Bracketed) -> Option<usize>
        ensures { result ≡ generic_used self.now.generics (scope_of scope.now) (bracketed_of found.now) }
    {
        match self.names.place(found.name.bytes()) {
            Some(number)
                if scope.may_use(number) && self.arity(number) == count_of(found.content) => Some(
                number,
            ),
            _ => None,
        }
    }
}
