//! What variables are bound to, in a table with an entry for each binder's number.

ghost use Rattle.std.specs.Prelude.{◌≡◌, ℕ, IfOk, OnOk};
ghost use Rattle.m5_terms.specs.Table.{entries, restored};
ghost use Rattle.m5_elaborate.specs.Outcome.{Ends};
ghost use Rattle.m5_elaborate.specs.Leaves.{local_type, valid_type};
ghost use Rattle.m5_elaborate.specs.Names.{at_depth, context, entered, under};

use crate::end::{Kind, TypeEnd};
use m5_lex::Place;
use m5_terms::table::{Binding, Hidden, Table};
use m5_terms::types::{Ty, World, is_same_world};
use std::alloc::{AllocError, Global};

/// What a variable is bound to: a local one has a world, a valid one is used at each.
#[derive(Drop)]
pub enum Bound {
    Local(World, Ty),
    Valid(Ty),
}

/// A variable's bound, and how many `sham`s stand around its binder.
#[derive(Drop)]
pub struct Entry {
    pub depth: u32,
    pub bound: Bound,
}

/// The entries of the binders so far.
pub type Names = Table<Entry>;

/// The binders of a form, each with the depth at which it is bound.
fn at_depth(depth: u32, binding: Binding<Bound>) -> Binding<Entry>
    ensures { result ≡ at_depth depth binding }
{
    match binding {
        Binding::Nothing => Binding::Nothing,
        Binding::One(number, bound) => Binding::One(number, Entry { depth, bound }),
        Binding::Two(number, bound, other, outer) => Binding::Two(
            number,
            Entry { depth, bound },
            other,
            Entry {
                depth,
                bound: outer,
            },
        ),
    }
}

/// Binds the variables of a form, and answers the entries that they hide.
#[tactic(auto, using(crate::proofs::Tables::inside_binders))]
pub(crate) fn enter(
    names: &mut Names,
    depth: u32,
    binding: Binding<Bound>,
) -> Result<Hidden<Entry>, AllocError>
    ensures names { OnOk result (entries names.new ≡ entered depth binding (entries names.old)) }
    ensures scope { OnOk result (context depth (entries names.new) ≡ under binding (context depth (entries names.old))) }
    ensures before { IfOk result (λ h. restored h (entries names.new) ≡ entries names.old) }
{
    names.enter(at_depth(depth, binding))
}

/// The type of a local variable that is used at a world.
pub(crate) fn local(
    alloc: Global,
    names: &Names,
    depth: u32,
    world: World,
    place: Place,
    number: u32,
) -> Result<Ty, TypeEnd>
    ensures { Ends result (local_type place world (context depth (entries names.now) number)) }
{
    match names.get(number as usize) {
        Some(
            Entry {
                depth: own,
                bound: Bound::Local(at, ty),
            },
        ) => {
            if *own == depth && is_same_world(*at, world) {
                Ok(ty.copy()?)
            } else {
                Err(TypeEnd::Refused(Kind::WrongWorld, place))
            }
        }
        _ => Err(TypeEnd::Refused(Kind::WrongWorld, place)),
    }
}

/// The type of a valid variable.
pub(crate) fn valid(alloc: Global, names: &Names, place: Place, number: u32) -> Result<Ty, TypeEnd>
    ensures { (depth : ℕ) → Ends result (valid_type place (context depth (entries names.now) number)) }
{
    match names.get(number as usize) {
        Some(
            Entry {
                depth: _,
                bound: Bound::Valid(ty),
            },
        ) => Ok(ty.copy()?),
        _ => Err(TypeEnd::Refused(Kind::WrongWorld, place)),
    }
}
