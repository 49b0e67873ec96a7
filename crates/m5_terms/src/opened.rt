//! A node seen as a form and its parts, which stay where they are.

ghost use Rattle.std.specs.Prelude.{◌≡◌};
ghost use Rattle.m5_terms.specs.Expression.{node_count};
ghost use Rattle.m5_terms.specs.TermMeaning.{parts, expression_of};
ghost use Rattle.m5_terms.specs.Opened.{opened, PartsAreSmaller};

use crate::form::{BinaryForm, TernaryForm};
use crate::node::{Node, NodeBox};
use crate::term::Term;
use crate::text::Text;
use crate::types::{Prim, Ty, World};

/// A form without parts, whose text or type stays in the node.
#[derive(Clone, Copy)]
pub enum LeafView<'a> {
    Var(u32),
    Valid(u32),
    Glob(u32),
    Extern(Prim),
    Unit,
    Bool(bool),
    Int(i64),
    Str(&'a Text),
    Addr(World),
    Here,
    Nil(&'a Ty),
    CellAt(World, u32),
}

/// A form of one part, whose types stay in the node.
#[derive(Clone, Copy)]
pub enum UnaryView<'a> {
    Fn(u32, &'a Ty),
    Rec(u32, u32, &'a Ty, &'a Ty),
    Fst,
    Snd,
    StrOf,
    Div,
    NewCell,
    Load,
    Hold,
    Sham,
    Spawn,
    Inl(&'a Ty),
    Inr(&'a Ty),
    Held(World),
}

/// A node's form and its parts, in the order of the text.
#[derive(Clone, Copy)]
pub enum Opened<'a, P> {
    Leaf(LeafView<'a>),
    Unary(UnaryView<'a>, &'a P),
    Binary(BinaryForm, &'a P, &'a P),
    Ternary(TernaryForm, &'a P, &'a P, &'a P),
}

impl<B> Term<B> {
    /// The form and the parts, without taking memory.
    pub fn open(&self) -> Opened<'_, B>
        ensures { opened result ≡ parts self.now }
    {
        match self {
            Term::Var(x) => Opened::Leaf(LeafView::Var(*x)),
            Term::Valid(x) => Opened::Leaf(LeafView::Valid(*x)),
            Term::Glob(x) => Opened::Leaf(LeafView::Glob(*x)),
            Term::Extern(prim) => Opened::Leaf(LeafView::Extern(*prim)),
            Term::Unit => Opened::Leaf(LeafView::Unit),
            Term::Bool(b) => Opened::Leaf(LeafView::Bool(*b)),
            Term::Int(n) => Opened::Leaf(LeafView::Int(*n)),
            Term::Str(text) => Opened::Leaf(LeafView::Str(text)),
            Term::Addr(world) => Opened::Leaf(LeafView::Addr(*world)),
            Term::Here => Opened::Leaf(LeafView::Here),
            Term::Nil { ty } => Opened::Leaf(LeafView::Nil(ty)),
            Term::CellAt(world, cell) => Opened::Leaf(LeafView::CellAt(*world, *cell)),
            Term::Fn { var, ty, first } => Opened::Unary(UnaryView::Fn(*var, ty), first),
            Term::Rec {
                var,
                other,
                ty,
                result,
                first,
            } => Opened::Unary(UnaryView::Rec(*var, *other, ty, result), first),
            Term::Fst { first } => Opened::Unary(UnaryView::Fst, first),
            Term::Snd { first } => Opened::Unary(UnaryView::Snd, first),
            Term::StrOf { first } => Opened::Unary(UnaryView::StrOf, first),
            Term::Div { first } => Opened::Unary(UnaryView::Div, first),
            Term::NewCell { first } => Opened::Unary(UnaryView::NewCell, first),
            Term::Load { first } => Opened::Unary(UnaryView::Load, first),
            Term::Hold { first } => Opened::Unary(UnaryView::Hold, first),
            Term::Sham { first } => Opened::Unary(UnaryView::Sham, first),
            Term::Spawn { first } => Opened::Unary(UnaryView::Spawn, first),
            Term::Inl { ty, first } => Opened::Unary(UnaryView::Inl(ty), first),
            Term::Inr { ty, first } => Opened::Unary(UnaryView::Inr(ty), first),
            Term::Held(world, first) => Opened::Unary(UnaryView::Held(*world), first),
            Term::Call { first, second } => Opened::Binary(BinaryForm::Call, first, second),
            Term::Pair { first, second } => Opened::Binary(BinaryForm::Pair, first, second),
            Term::Cons { first, second } => Opened::Binary(BinaryForm::Cons, first, second),
            Term::Store { first, second } => Opened::Binary(BinaryForm::Store, first, second),
            Term::Do { first, second } => Opened::Binary(BinaryForm::Do, first, second),
            Term::Get { first, second } => Opened::Binary(BinaryForm::Get, first, second),
            Term::Binary { op, first, second } => Opened::Binary(
                BinaryForm::Binary(*op),
                first,
                second,
            ),
            Term::Val { var, first, second } => Opened::Binary(
                BinaryForm::Val(*var),
                first,
                second,
            ),
            Term::Put { var, first, second } => Opened::Binary(
                BinaryForm::Put(*var),
                first,
                second,
            ),
            Term::Leta { var, first, second } => Opened::Binary(
                BinaryForm::Leta(*var),
                first,
                second,
            ),
            Term::Lets { var, first, second } => Opened::Binary(
                BinaryForm::Lets(*var),
                first,
                second,
            ),
            Term::If {
                first,
                second,
                third,
            } => Opened::Ternary(TernaryForm::If, first, second, third),
            Term::CaseSum {
                first,
                var,
                second,
                other,
                third,
            } => Opened::Ternary(TernaryForm::CaseSum(*var, *other), first, second, third),
            Term::CaseList {
                first,
                second,
                var,
                other,
                third,
            } => Opened::Ternary(TernaryForm::CaseList(*var, *other), first, second, third),
        }
    }
}

impl Node {
    /// The form and the parts, without taking memory.
    pub fn open(&self) -> Opened<'_, Node>
        ensures value { expression_of (opened result) ≡ self.now }
        ensures smaller { PartsAreSmaller node_count (node_count self.now) result }
    {
        match self.term.open() {
            Opened::Leaf(form) => Opened::Leaf(form),
            Opened::Unary(form, first) => Opened::Unary(form, first.get()),
            Opened::Binary(form, first, second) => Opened::Binary(form, first.get(), second.get()),
            Opened::Ternary(form, first, second, third) => {
                Opened::Ternary(form, first.get(), second.get(), third.get())
            }
        }
    }

    /// The form and the boxes of the parts, which can be shared.
    pub fn open_boxes(&self) -> Opened<'_, NodeBox>
        ensures value { expression_of (opened result) ≡ self.now }
        ensures smaller { PartsAreSmaller node_count (node_count self.now) result }
    {
        self.term.open()
    }
}
