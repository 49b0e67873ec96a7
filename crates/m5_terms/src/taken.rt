//! A node taken apart into its form and its parts.

ghost use Rattle.std.specs.Prelude.{◌≡◌};
ghost use Rattle.m5_terms.specs.TermMeaning.{parts, expression_of};

use crate::form::{BinaryForm, LeafForm, TernaryForm, UnaryForm};
use crate::node::{Node, NodeBox};
use crate::term::Term;

/// A node's form and its parts.
#[derive(Drop)]
pub enum Taken<B> {
    Leaf(LeafForm),
    Unary(UnaryForm, B),
    Binary(BinaryForm, B, B),
    Ternary(TernaryForm, B, B, B),
}

impl<B> Term<B> {
    pub fn take(self) -> Taken<B>
        ensures { result ≡ parts self }
    {
        match self {
            Term::Var(x) => Taken::Leaf(LeafForm::Var(x)),
            Term::Valid(x) => Taken::Leaf(LeafForm::Valid(x)),
            Term::Glob(x) => Taken::Leaf(LeafForm::Glob(x)),
            Term::Extern(prim) => Taken::Leaf(LeafForm::Extern(prim)),
            Term::Unit => Taken::Leaf(LeafForm::Unit),
            Term::Bool(b) => Taken::Leaf(LeafForm::Bool(b)),
            Term::Int(n) => Taken::Leaf(LeafForm::Int(n)),
            Term::Str(text) => Taken::Leaf(LeafForm::Str(text)),
            Term::Addr(world) => Taken::Leaf(LeafForm::Addr(world)),
            Term::Here => Taken::Leaf(LeafForm::Here),
            Term::Nil { ty } => Taken::Leaf(LeafForm::Nil(ty)),
            Term::CellAt(world, cell) => Taken::Leaf(LeafForm::CellAt(world, cell)),
            Term::Fn { var, ty, first } => Taken::Unary(UnaryForm::Fn(var, ty), first),
            Term::Rec {
                var,
                other,
                ty,
                result,
                first,
            } => Taken::Unary(UnaryForm::Rec(var, other, ty, result), first),
            Term::Fst { first } => Taken::Unary(UnaryForm::Fst, first),
            Term::Snd { first } => Taken::Unary(UnaryForm::Snd, first),
            Term::StrOf { first } => Taken::Unary(UnaryForm::StrOf, first),
            Term::Div { first } => Taken::Unary(UnaryForm::Div, first),
            Term::NewCell { first } => Taken::Unary(UnaryForm::NewCell, first),
            Term::Load { first } => Taken::Unary(UnaryForm::Load, first),
            Term::Hold { first } => Taken::Unary(UnaryForm::Hold, first),
            Term::Sham { first } => Taken::Unary(UnaryForm::Sham, first),
            Term::Spawn { first } => Taken::Unary(UnaryForm::Spawn, first),
            Term::Inl { ty, first } => Taken::Unary(UnaryForm::Inl(ty), first),
            Term::Inr { ty, first } => Taken::Unary(UnaryForm::Inr(ty), first),
            Term::Held(world, first) => Taken::Unary(UnaryForm::Held(world), first),
            Term::Call { first, second } => Taken::Binary(BinaryForm::Call, first, second),
            Term::Pair { first, second } => Taken::Binary(BinaryForm::Pair, first, second),
            Term::Cons { first, second } => Taken::Binary(BinaryForm::Cons, first, second),
            Term::Store { first, second } => Taken::Binary(BinaryForm::Store, first, second),
            Term::Do { first, second } => Taken::Binary(BinaryForm::Do, first, second),
            Term::Get { first, second } => Taken::Binary(BinaryForm::Get, first, second),
            Term::Binary { op, first, second } => Taken::Binary(
                BinaryForm::Binary(op),
                first,
                second,
            ),
            Term::Val { var, first, second } => Taken::Binary(BinaryForm::Val(var), first, second),
            Term::Put { var, first, second } => Taken::Binary(BinaryForm::Put(var), first, second),
            Term::Leta { var, first, second } => Taken::Binary(
                BinaryForm::Leta(var),
                first,
                second,
            ),
            Term::Lets { var, first, second } => Taken::Binary(
                BinaryForm::Lets(var),
                first,
                second,
            ),
            Term::If {
                first,
                second,
                third,
            } => Taken::Ternary(TernaryForm::If, first, second, third),
            Term::CaseSum {
                first,
                var,
                second,
                other,
                third,
            } => Taken::Ternary(TernaryForm::CaseSum(var, other), first, second, third),
            Term::CaseList {
                first,
                second,
                var,
                other,
                third,
            } => Taken::Ternary(TernaryForm::CaseList(var, other), first, second, third),
        }
    }
}

impl Node {
    pub fn take(self) -> Taken<NodeBox>
        ensures { expression_of result ≡ self }
    {
        self.into_term().take()
    }
}
