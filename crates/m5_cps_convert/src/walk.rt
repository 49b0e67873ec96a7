//! What is at hand while the blocks of a program are written, and where the code goes on.

ghost use Rattle.std.specs.Prelude.{◌≡◌, suc, IfOk};

use m5_cps::entry::Mode;
use m5_cps::steps::Steps;
use m5_cps::types::Types;
use m5_terms::table::Table;
use std::alloc::AllocError;

/// A local variable is of no use under a `sham` that stands inside its binder.
#[derive(Clone, Copy)]
pub enum Kind {
    Local,
    Valid,
}

/// What is known of a variable: how many `sham`s stand around its binder, its slot, and its type by
/// number.
#[derive(Clone, Copy)]
pub struct Known {
    pub kind: Kind,
    pub depth: u32,
    pub slot: u32,
    pub ty: usize,
}

/// The variables that are bound.
pub type Names = Table<Known>;

/// The types and steps so far, the variables, and the types of the declared functions.
#[derive(Drop)]
pub struct Walk {
    pub types: Types,
    pub steps: Steps,
    pub names: Names,
    pub functions: Vec<usize>,
}

/// Where a node stands: its mode, how many `sham`s are around it, and how many arms are open.
#[derive(Clone, Copy)]
pub struct Around {
    pub mode: Mode,
    pub depth: u32,
    pub arms: u32,
}

/// What becomes of a node's value: it goes to the continuation in a slot, code goes on with it, or
/// the thread ends.
#[derive(Clone, Copy)]
pub enum Goal {
    Tail(u32),
    Then,
    End,
}

/// A node's value: its slot, how many slots are then filled, and its type. Where code does not go
/// on with it, the slot says nothing.
#[derive(Clone, Copy)]
pub struct Value {
    pub slot: u32,
    pub filled: u32,
    pub ty: usize,
}

/// The next number. One too large for a slot counts as want of memory.
pub(crate) fn next_number(number: u32) -> Result<u32, AllocError>
    ensures { IfOk result (λ n. n ≡ suc number) }
{
    match number.checked_add(1) {
        Some(next) => Ok(next),
        None => Err(AllocError),
    }
}
