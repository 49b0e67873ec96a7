//! Instructions and endings, as they stand one after the other in a block.

use crate::listed::{Operands, TextBytes};

/// What fills the next slot. A number of a slot is a `u16`.
#[derive(Drop)]
pub enum Instruction {
    Unit,
    Bool(bool),
    Int(i64),
    /// A new text.
    Text(TextBytes),
    /// A new array of the values of slots.
    Array(Operands),
    /// The field of the array in a slot, at a place.
    Field(u16, u16),
    Add(u16, u16),
    Sub(u16, u16),
    Mul(u16, u16),
    Quo(u16, u16),
    /// A new text, the bytes of two.
    Cat(u16, u16),
    /// A new text, a number in decimal.
    Str(u16),
    Less(u16, u16),
    /// Whether two numbers are equal.
    EqualInts(u16, u16),
    /// Whether two texts are equal.
    EqualTexts(u16, u16),
    /// Whether two numbers, or two texts, are equal.
    Same(u16, u16),
    /// A new cell, which holds the value of a slot; its place.
    Cell(u16),
    /// What the cell at a place holds.
    Load(u16),
    /// Sets the cell at a place.
    Store(u16, u16),
    /// Adds a thread that enters a closure.
    Spawn(u16),
}

/// An instruction or an ending.
#[derive(Drop)]
pub enum Step {
    Fill(Instruction),
    /// The slot, and the place of the body that is taken where it is false; the other follows.
    If(u16, u32),
    /// Enters the closure of the first slot with the value of the second.
    Go(u16, u16),
    /// Calls the primitive of a code with an argument; the answer enters the closure of the last
    /// slot.
    Ask(u8, u16, u16),
    /// Leaves to a world (0 home, 1 server, 2 panel) with a closure and a value.
    Send(u8, u16, u16),
    Done,
}
