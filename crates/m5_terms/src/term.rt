//! Terms over any box for their parts.

use crate::text::Text;
use crate::types::{Op, Prim, Ty, World};

/// One variant for each form of a term. `first`, `second` and `third` are its parts in the order
/// of the text, `var` and `other` what it binds, `ty` and `result` the types written in it.
/// `Held` and `CellAt` are values of a run that no text has.
#[derive(Drop)]
pub enum Term<B> {
    Var(u32),
    Valid(u32),
    Glob(u32),
    Extern(Prim),
    Unit,
    Bool(bool),
    Int(i64),
    Str(Text),
    Addr(World),
    Here,
    Fn {
        var: u32,
        ty: Ty,
        first: B,
    },
    Rec {
        var: u32,
        other: u32,
        ty: Ty,
        result: Ty,
        first: B,
    },
    Fst {
        first: B,
    },
    Snd {
        first: B,
    },
    StrOf {
        first: B,
    },
    Div {
        first: B,
    },
    NewCell {
        first: B,
    },
    Load {
        first: B,
    },
    Hold {
        first: B,
    },
    Sham {
        first: B,
    },
    Spawn {
        first: B,
    },
    Call {
        first: B,
        second: B,
    },
    Pair {
        first: B,
        second: B,
    },
    Cons {
        first: B,
        second: B,
    },
    Store {
        first: B,
        second: B,
    },
    Do {
        first: B,
        second: B,
    },
    Get {
        first: B,
        second: B,
    },
    Binary {
        op: Op,
        first: B,
        second: B,
    },
    Inl {
        ty: Ty,
        first: B,
    },
    Inr {
        ty: Ty,
        first: B,
    },
    Nil {
        ty: Ty,
    },
    If {
        first: B,
        second: B,
        third: B,
    },
    CaseSum {
        first: B,
        var: u32,
        second: B,
        other: u32,
        third: B,
    },
    CaseList {
        first: B,
        second: B,
        var: u32,
        other: u32,
        third: B,
    },
    Val {
        var: u32,
        first: B,
        second: B,
    },
    Put {
        var: u32,
        first: B,
        second: B,
    },
    Leta {
        var: u32,
        first: B,
        second: B,
    },
    Lets {
        var: u32,
        first: B,
        second: B,
    },
    Held(World, B),
    CellAt(World, u32),
}
