//! Straight forms and endings of the block that is being written.

ghost use Rattle.std.specs.Prelude.{IfOk};
ghost use Rattle.m5_cps_convert.specs.Continuations.{apply};
ghost use Rattle.m5_cps_convert.specs.code.Writing.{WritesValue, Gives};

use crate::walk::{Goal, Value, Walk, next_number};
use m5_cps::step::{Ending, Step, Straight};
use std::alloc::AllocError;

/// The value is in a slot: its continuation is entered, or code goes on.
pub(crate) fn go_on(
    walk: &mut Walk,
    slot: u32,
    filled: u32,
    goal: Goal,
    ty: usize,
) -> Result<Value, AllocError>
    ensures { IfOk result (WritesValue walk.old walk.new goal ty (λ κ. apply κ slot filled)) }
{
    match goal {
        Goal::Tail(k) => walk.steps.push(Step::Ends(Ending::Go(k, slot)))?,
        Goal::Then => {}
        Goal::End => walk.steps.push(Step::Ends(Ending::Done))?,
    }
    Ok(Value { slot, filled, ty })
}

/// A form whose value fills the next slot.
pub(crate) fn give(
    walk: &mut Walk,
    straight: Straight,
    filled: u32,
    goal: Goal,
    ty: usize,
) -> Result<Value, AllocError>
    ensures { IfOk result (Gives walk.old walk.new straight filled goal ty) }
{
    walk.steps.push(Step::Straight(straight))?;
    go_on(walk, filled, next_number(filled)?, goal, ty)
}
