//! Copies of forms and of terms.

ghost use Rattle.std.specs.Prelude.{◌≡◌, IfOk};
ghost use Rattle.m5_terms.specs.Expression.{leaf, unary, binary, ternary};
ghost use Rattle.m5_terms.specs.Opened.{viewed_leaf, viewed_unary};

use crate::form::{LeafForm, UnaryForm};
use crate::node::Node;
use crate::opened::{LeafView, Opened, UnaryView};
use std::alloc::{AllocError, Global};

impl LeafView<'_> {
    /// The form with a text of its own; a type is shared.
    pub fn copy(&self, alloc: Global) -> Result<LeafForm, AllocError>
        ensures { IfOk result (λ f. f ≡ viewed_leaf self.now) }
    {
        match self {
            LeafView::Var(x) => Ok(LeafForm::Var(*x)),
            LeafView::Valid(x) => Ok(LeafForm::Valid(*x)),
            LeafView::Glob(x) => Ok(LeafForm::Glob(*x)),
            LeafView::Extern(prim) => Ok(LeafForm::Extern(*prim)),
            LeafView::Unit => Ok(LeafForm::Unit),
            LeafView::Bool(b) => Ok(LeafForm::Bool(*b)),
            LeafView::Int(n) => Ok(LeafForm::Int(*n)),
            LeafView::Str(text) => Ok(LeafForm::Str(text.copy(alloc)?)),
            LeafView::Addr(world) => Ok(LeafForm::Addr(*world)),
            LeafView::Here => Ok(LeafForm::Here),
            LeafView::Nil(ty) => Ok(LeafForm::Nil(ty.copy()?)),
            LeafView::CellAt(world, cell) => Ok(LeafForm::CellAt(*world, *cell)),
        }
    }
}

impl UnaryView<'_> {
    /// The form again; its types are shared.
    pub fn copy(&self) -> Result<UnaryForm, AllocError>
        ensures { IfOk result (λ f. f ≡ viewed_unary self.now) }
    {
        match self {
            UnaryView::Fn(var, ty) => Ok(UnaryForm::Fn(*var, ty.copy()?)),
            UnaryView::Rec(var, other, ty, codomain) => {
                let domain = ty.copy()?;
                Ok(UnaryForm::Rec(*var, *other, domain, codomain.copy()?))
            }
            UnaryView::Fst => Ok(UnaryForm::Fst),
            UnaryView::Snd => Ok(UnaryForm::Snd),
            UnaryView::StrOf => Ok(UnaryForm::StrOf),
            UnaryView::Div => Ok(UnaryForm::Div),
            UnaryView::NewCell => Ok(UnaryForm::NewCell),
            UnaryView::Load => Ok(UnaryForm::Load),
            UnaryView::Hold => Ok(UnaryForm::Hold),
            UnaryView::Sham => Ok(UnaryForm::Sham),
            UnaryView::Spawn => Ok(UnaryForm::Spawn),
            UnaryView::Inl(ty) => Ok(UnaryForm::Inl(ty.copy()?)),
            UnaryView::Inr(ty) => Ok(UnaryForm::Inr(ty.copy()?)),
            UnaryView::Held(world) => Ok(UnaryForm::Held(*world)),
        }
    }
}

impl Node {
    /// The same term again. Its parts are shared, so the cost does not grow with the term.
    pub fn copy(&self, alloc: Global) -> Result<Node, AllocError>
        ensures { IfOk result (λ n. n ≡ self.now) }
    {
        match self.open_boxes() {
            Opened::Leaf(form) => Ok(Node::leaf(form.copy(alloc)?)),
            Opened::Unary(form, first) => {
                let copied = form.copy()?;
                Ok(Node::unary(copied, first.share()?))
            }
            Opened::Binary(form, first, second) => {
                Ok(Node::binary(form, first.share()?, second.share()?))
            }
            Opened::Ternary(form, first, second, third) => {
                Ok(Node::ternary(form, first.share()?, second.share()?, third.share()?))
            }
        }
    }
}
