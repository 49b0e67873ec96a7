//! Where the parts of a node stand.

ghost use Rattle.std.specs.Prelude.{◌≡◌, IfOk};
ghost use Rattle.m5_cps_convert.specs.code.Around.{IsInArm, IsPartAround};
ghost use Rattle.m5_terms.specs.Opened.{viewed_unary};
ghost use Rattle.m5_cps.specs.declared.entry.Entry.TheVariants.{ByValue};
ghost use Rattle.m5_cps.specs.declared.entry.Argument.TheVariants.{Value, Continuation};

use crate::walk::{Around, next_number};
use m5_cps::entry::{Argument, Entry, Mode};
use m5_terms::opened::UnaryView;
use std::alloc::AllocError;

/// How many arms may be open around a node in one block.
pub(crate) const OPEN_ARMS: u32 = 500;

/// In an arm of a choice of the same block.
pub(crate) fn in_arm(around: Around) -> Result<Around, AllocError>
    ensures { IfOk result (IsInArm around) }
{
    Ok(Around {
        mode: around.mode,
        depth: around.depth,
        arms: next_number(around.arms)?,
    })
}

/// In a block of its own, which stands at that mode.
pub(crate) fn in_block(around: Around, mode: Mode) -> Around
    ensures { result ≡ record { mode = mode; depth = around.depth; arms = 0 } }
{
    Around {
        mode,
        depth: around.depth,
        arms: 0,
    }
}

/// The part of a `sham` is made for each world, and that of another form where the form is.
pub(crate) fn around_part(around: Around, form: &UnaryView<'_>) -> Result<Around, AllocError>
    ensures { IfOk result (IsPartAround around (viewed_unary form.now)) }
{
    match form {
        UnaryView::Sham => Ok(Around {
            mode: Mode::Everywhere,
            depth: next_number(around.depth)?,
            arms: around.arms,
        }),
        _ => Ok(around),
    }
}

/// How a continuation of a node's block is entered.
pub(crate) fn taking(around: Around, ty: usize) -> Entry
    ensures { result ≡ ByValue around.mode (Value ty) }
{
    Entry::ByValue(around.mode, Argument::Value(ty))
}

/// How a block is entered that waits for its continuation.
pub(crate) fn awaiting(mode: Mode, ty: usize) -> Entry
    ensures { result ≡ ByValue mode (Continuation ty) }
{
    Entry::ByValue(mode, Argument::Continuation(ty))
}
