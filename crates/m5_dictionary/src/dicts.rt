//! Dictionaries.

ghost use Rattle.std.specs.Prelude.{◌≡◌, length, slice_get, IfSome, IfNone, Some, None};
ghost use Rattle.m5_dictionary.specs.Dictionaries.{IsDictionaries, IsEntrance};

use crate::check::{are_labels, are_lines};
use crate::label::Label;
use crate::line::TypeLine;
use std::marker::Model;

/// The types by their ids, each line once, and the labels by their numbers.
#[derive(Drop)]
pub struct Dicts {
    types: Vec<TypeLine>,
    labels: Vec<Label>,
}

impl Model for Dicts {
    ghost use Rattle.m5_dictionary.specs.Dictionaries.{Dictionaries, IsDictionaries};

    ghost Value = { Dictionaries };

    ghost view = { λ d. record { types = d.types.items; labels = d.labels.items } };

    ghost invariant = { λ d. IsDictionaries (record { types = d.types.items; labels = d.labels.items }) };
}

impl Dicts {
    /// The dictionaries of these lines and labels.
    pub fn make(types: Vec<TypeLine>, labels: Vec<Label>) -> Dicts
        requires { IsDictionaries (record { types = types.items; labels = labels.items }) }
        ensures { result ≡ record { types = types.items; labels = labels.items } }
    {
        Dicts { types, labels }
    }

    /// The dictionaries of these lines and labels, if they are ones.
    pub fn of(types: Vec<TypeLine>, labels: Vec<Label>) -> Option<Dicts>
        ensures found { IfSome result (λ d. d ≡ record { types = types.items; labels = labels.items }) }
        ensures none { IfNone result (IsDictionaries (record { types = types.items; labels = labels.items }) → ⊥) }
    {
        if !are_lines(types.as_slice()) {
            return None;
        }
        if !are_labels(types.len(), labels.as_slice()) {
            return None;
        }
        Some(Dicts { types, labels })
    }

    /// What the type's invariant says. The call does nothing.
    pub fn are_dictionaries(&self)
        ensures { IsDictionaries self.now }
    {
        let _ = &self.types;
    }

    /// The lines of the type table, by type id.
    pub fn types(&self) -> &[TypeLine]
        ensures { result.now ≡ self.now.types }
    {
        self.types.as_slice()
    }

    /// The labels, by number.
    pub fn labels(&self) -> &[Label]
        ensures { result.now ≡ self.now.labels }
    {
        self.labels.as_slice()
    }

    /// What a type id stands for.
    pub fn line(&self, id: u32) -> Option<TypeLine>
        ensures { result ≡ slice_get self.now.types id }
    {
        self.types.get(id as usize).copied()
    }

    /// The label of a number.
    pub fn label(&self, number: u16) -> Option<&Label>
        ensures some { IfSome result (λ label. slice_get self.now.labels number ≡ Some label.now) }
        ensures none { IfNone result (slice_get self.now.labels number ≡ None) }
        ensures entrance { IfSome result (λ label. IsEntrance (length self.now.types) label.now) }
    {
        self.labels.get(number as usize)
    }
}
