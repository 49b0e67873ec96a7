//! The forms of types and expressions without their parts, by the number of parts.

use crate::type_expr::TypeExpr;
use m5_terms::text::Text;
use m5_terms::types::{Op, World};

/// A type without parts.
#[derive(Clone, Copy)]
pub enum TypePlain {
    Unit,
    Bool,
    Int,
    Str,
    Addr(World),
}

/// A type of one part.
#[derive(Clone, Copy)]
pub enum TypeWrap {
    List,
    Cell,
    Sham,
    At(World),
}

/// A type of two parts.
#[derive(Clone, Copy)]
pub enum TypeJoin {
    Prod,
    Sum,
    Fun,
}

/// An expression without parts. Names are numbers.
#[derive(Drop)]
pub enum LeafForm {
    Name(usize),
    Number(u64),
    Str(Text),
    Bool(bool),
    Unit,
    Addr(World),
    Here,
    Nil(TypeExpr),
}

/// An expression of one part; the types of `Rec` are its parameter's and its result's.
#[derive(Drop)]
pub enum UnaryForm {
    Fn(usize, TypeExpr),
    Rec(usize, usize, TypeExpr, TypeExpr),
    Fst,
    Snd,
    Load,
    NewCell,
    Hold,
    Sham,
    StrOf,
    Div,
    Inl(TypeExpr),
    Inr(TypeExpr),
    Spawn,
}

/// An expression of two parts. A declaration of a `let` is a node over the rest of its `let`.
#[derive(Clone, Copy)]
pub enum BinaryForm {
    Call,
    Pair,
    Cons,
    Store,
    Binary(Op),
    Get,
    Do,
    Val(usize),
    Put(usize),
    Leta(usize),
    Lets(usize),
}

/// An expression of three parts; the names of a case are those of its arms, of a list's head and tail.
#[derive(Clone, Copy)]
pub enum TernaryForm {
    If,
    CaseSum(usize, usize),
    CaseList(usize, usize),
}
