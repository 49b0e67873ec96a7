//! The forms of terms without their parts, by the number of parts.

use crate::text::Text;
use crate::types::{Op, Prim, Ty, World};

/// A form without parts. `Var` is a local variable, `Valid` a valid one, `Glob` a declared
/// function, each by its number. `Addr` is a world's address and `Here` that of the world where it
/// is evaluated. `Nil` has the type of the elements. `CellAt`, a cell of a site at that world, is
/// in no text.
#[derive(Drop)]
pub enum LeafForm {
    Var(u32),
    Valid(u32),
    Glob(u32),
    Extern(Prim),
    Unit,
    Bool(bool),
    Int(i64),
    Str(Text),
    Addr(World),
    Here,
    Nil(Ty),
    CellAt(World, u32),
}

/// A form of one part. `Fn` has its parameter and the parameter's type; `Rec` the function, the
/// parameter, its type and the result's; `Inl` and `Inr` the whole sum. `Held`, a value held at a
/// world, is in no text.
#[derive(Drop)]
pub enum UnaryForm {
    Fn(u32, Ty),
    Rec(u32, u32, Ty, Ty),
    Fst,
    Snd,
    StrOf,
    Div,
    NewCell,
    Load,
    Hold,
    Sham,
    Spawn,
    Inl(Ty),
    Inr(Ty),
    Held(World),
}

/// A form of two parts. `Do` to `Lets` are declarations over the rest of their `let`, with the
/// variable that they bind.
#[derive(Clone, Copy)]
pub enum BinaryForm {
    Call,
    Pair,
    Cons,
    Store,
    Do,
    Get,
    Binary(Op),
    Val(u32),
    Put(u32),
    Leta(u32),
    Lets(u32),
}

/// A form of three parts. `CaseSum` binds one variable in each arm, `CaseList` the head and the
/// tail in its last.
#[derive(Clone, Copy)]
pub enum TernaryForm {
    If,
    CaseSum(u32, u32),
    CaseList(u32, u32),
}
