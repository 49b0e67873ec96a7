//! Nested pairs, by a loop: a flat tuple nests as deep as it is long.

ghost use Rattle.std.specs.Prelude.{◌≡◌, ◌++◌, ◌∷◌, [], IfOk, OnOk};
ghost use Rattle.m5_cps_convert.specs.code.Pairs.{MakesPair, PairsUp};

use crate::types::add_row;
use crate::walk::{Goal, Value, Walk, next_number};
use crate::writing::go_on;
use m5_cps::step::{Step, Straight};
use m5_cps::types::TypeRow;
use m5_terms::form::BinaryForm;
use std::alloc::AllocError;

/// A pair whose second part is to come: its first part's slot and type.
#[derive(Clone, Copy)]
pub struct Waiting {
    pub slot: u32,
    pub ty: usize,
}

/// Adds a pair inside the others.
pub(crate) fn wait(waiting: &mut Vec<Waiting>, first: Value) -> Result<(), AllocError>
    ensures { OnOk result (waiting.new.items ≡ waiting.old.items ++ record { slot = first.slot; ty = first.ty } ∷ []) }
{
    waiting.push(Waiting {
        slot: first.slot,
        ty: first.ty,
    })?;
    Ok(())
}

/// The pair of a value that waits and another one.
fn pair(walk: &mut Walk, first: Waiting, second: Value) -> Result<Value, AllocError>
    ensures { IfOk result (MakesPair walk.old walk.new first second) }
{
    let ty = add_row(&mut walk.types, TypeRow::Product(first.ty, second.ty))?;
    walk.steps.push(Step::Straight(Straight::Two(BinaryForm::Pair, first.slot, second.slot)))?;
    Ok(Value {
        slot: second.filled,
        filled: next_number(second.filled)?,
        ty,
    })
}

/// The nested pairs round a last value, from inside.
pub(crate) fn pair_up(
    walk: &mut Walk,
    mut waiting: Vec<Waiting>,
    last: Value,
    goal: Goal,
) -> Result<Value, AllocError>
    ensures { IfOk result (PairsUp walk.old walk.new waiting.items last goal) }
{
    let mut whole = last;
    while let Some(first) = waiting.pop() {
        whole = pair(walk, first, whole)?;
    }
    go_on(walk, whole.slot, whole.filled, goal, whole.ty)
}
