//! Closures that are written before the places of their blocks are known.

ghost use Rattle.std.specs.Prelude.{◌≡◌, ◌<◌, length, IfOk};
ghost use Rattle.m5_cps_convert.specs.code.Closing.{Opens, Holds, Resumes, Behind, Before, HeldIsOpen};

use crate::walk::{Goal, Value, Walk, next_number};
use m5_cps::entry::{Argument, Entry, Mode};
use m5_cps::step::{Ending, Step};
use std::alloc::AllocError;

/// A closure whose step is to be written again: its place, and the one behind it.
#[derive(Clone, Copy)]
pub struct Pending {
    pub place: usize,
    pub behind: usize,
}

/// A continuation in a slot, with the number of filled slots; and its closure, if it is made here.
#[derive(Clone, Copy)]
pub struct Held {
    pub slot: u32,
    pub filled: u32,
    pub pending: Option<Pending>,
}

/// Adds a closure without its entry and places.
pub(crate) fn begin_closure(walk: &mut Walk) -> Result<Pending, AllocError>
    ensures { IfOk result (Opens walk.old walk.new) }
{
    let place = walk.steps.count();
    let entry = Entry::ByValue(Mode::Everywhere, Argument::Value(0));
    walk.steps.push(Step::Closure {
        entry,
        block: 0,
        next: 0,
    })?;
    Ok(Pending {
        place,
        behind: walk.steps.count(),
    })
}

/// The closure's block was written behind it, and the code goes on here.
pub(crate) fn close_behind(walk: &mut Walk, pending: Pending, entry: Entry)
    requires { pending.place < length walk.old.steps }
    ensures { Behind walk.old walk.new pending entry }
{
    let next = walk.steps.count();
    walk.steps.set(
        pending.place,
        Step::Closure {
            entry,
            block: pending.behind,
            next,
        },
    );
}

/// The code went on behind the closure, and its block begins here.
fn close_before(walk: &mut Walk, pending: Pending, entry: Entry)
    requires { pending.place < length walk.old.steps }
    ensures { Before walk.old walk.new pending entry }
{
    let block = walk.steps.count();
    walk.steps.set(
        pending.place,
        Step::Closure {
            entry,
            block,
            next: pending.behind,
        },
    );
}

/// A slot that has the continuation: one that is in a slot is not made again.
pub(crate) fn hold(walk: &mut Walk, goal: Goal, filled: u32) -> Result<Held, AllocError>
    ensures { IfOk result (Holds walk.old walk.new goal filled) }
{
    match goal {
        Goal::Tail(slot) => Ok(Held {
            slot,
            filled,
            pending: None,
        }),
        Goal::Then | Goal::End => {
            let pending = begin_closure(walk)?;
            Ok(Held {
                slot: filled,
                filled: next_number(filled)?,
                pending: Some(pending),
            })
        }
    }
}

/// What follows a continuation that was made here, as a block of its own.
pub(crate) fn resume(
    walk: &mut Walk,
    held: Held,
    goal: Goal,
    entry: Entry,
    ty: usize,
) -> Result<Value, AllocError>
    requires { HeldIsOpen walk.old held }
    ensures { IfOk result (Resumes walk.old walk.new held goal entry ty) }
{
    let slot = held.filled;
    let filled = next_number(slot)?;
    if let Some(pending) = held.pending {
        close_before(walk, pending, entry);
        if let Goal::End = goal {
            walk.steps.push(Step::Ends(Ending::Done))?;
        }
    }
    Ok(Value { slot, filled, ty })
}
