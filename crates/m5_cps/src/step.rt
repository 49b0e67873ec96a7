//! Straight forms, tests and endings, as they stand one after the other in a program's list of steps.

use crate::entry::Entry;
use m5_terms::form::BinaryForm;
use m5_terms::text::Text;
use m5_terms::types::{Prim, World};

/// The value of a form without parts. `Nil` has the type of the elements.
#[derive(Drop)]
pub enum Constant {
    Glob(u32),
    Extern(Prim),
    Unit,
    Bool(bool),
    Int(i64),
    Str(Text),
    Addr(World),
    Here,
    Nil(usize),
}

/// What is made of one value. `Inl` and `Inr` have the whole sum's type.
#[derive(Clone, Copy)]
pub enum Operation {
    Fst,
    Snd,
    StrOf,
    Div,
    NewCell,
    Load,
    Hold,
    Sham,
    Inl(usize),
    Inr(usize),
}

/// A form whose value fills the next slot, over the slots of its parts.
#[derive(Drop)]
pub enum Straight {
    Constant(Constant),
    One(Operation, u32),
    Two(BinaryForm, u32, u32),
    Unheld(u32),
    Unsham(u32),
    Spawn(u32),
}

/// What a block may ask of a value, to go on in one of two ways.
#[derive(Clone, Copy)]
pub enum Test {
    True,
    Left,
    Nil,
    Here,
}

/// How a block ends.
#[derive(Clone, Copy)]
pub enum Ending {
    /// Enters the closure of the first slot with the second.
    Go(u32, u32),
    /// Calls the function of the first slot with the second, to go on with the third.
    Call(u32, u32, u32),
    /// Asks by a primitive with the argument in the first slot, to go on with the second.
    Ask(Prim, u32, u32),
    /// To the address in the first slot go the closure of the second and the third.
    Send(u32, u32, u32),
    Done,
}

/// A step of a block. The code after a straight form stands right behind it.
#[derive(Drop)]
pub enum Step {
    Straight(Straight),
    /// The next slot is a closure of the block at a place; the code goes on at another.
    Closure {
        entry: Entry,
        block: usize,
        next: usize,
    },
    /// Where the test holds, the code goes on right behind it, else at a place.
    Test {
        test: Test,
        slot: u32,
        second: usize,
    },
    Ends(Ending),
}
