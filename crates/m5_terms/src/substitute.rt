//! A closed value in the place of a variable.

ghost use Rattle.std.specs.Prelude.{◌≡◌, Bool, IsTrue, IfOk};
ghost use Rattle.m5_terms.specs.Expression.{Expression, leaf, unary, binary, ternary};
ghost use Rattle.m5_terms.specs.Opened.{viewed_leaf};
ghost use Rattle.m5_terms.specs.Substitution.{substituted, substituted_leaf, unless};
ghost use Rattle.m5_terms.specs.Closed.{IsClosed};

use crate::node::{Node, NodeBox};
use crate::opened::{LeafView, Opened};
use std::alloc::{AllocError, Global};

fn at_leaf(
    alloc: Global,
    variable: u32,
    value: &NodeBox,
    form: &LeafView<'_>,
) -> Result<Node, AllocError>
    ensures { IfOk result (λ n. n ≡ substituted_leaf variable value.now (viewed_leaf form.now)) }
{
    match form {
        LeafView::Var(x) if *x == variable => value.get().copy(alloc),
        LeafView::Valid(x) if *x == variable => value.get().copy(alloc),
        other => Ok(Node::leaf(other.copy(alloc)?)),
    }
}

/// Whether the term is a use of the variable.
fn is_use(variable: u32, term: &Node) -> bool
    ensures { IsTrue result → (v : Expression) → substituted variable v term.now ≡ v }
{
    match term.open_boxes() {
        Opened::Leaf(LeafView::Var(x)) | Opened::Leaf(LeafView::Valid(x)) => x == variable,
        _ => false,
    }
}

/// The part of a term in which the variable is replaced unless it is bound there.
#[cycle(substitute)]
fn in_part(
    alloc: Global,
    variable: u32,
    value: &NodeBox,
    bound: bool,
    part: &NodeBox,
) -> Result<NodeBox, AllocError>
    ensures { IfOk result (λ n. n ≡ unless bound part.now (substituted variable value.now part.now)) }
{
    if bound {
        part.share()
    } else {
        replaced(alloc, variable, value, part)
    }
}

/// The part with the value for the variable. A part without free variables is shared, and so is the value.
#[cycle(substitute)]
fn replaced(
    alloc: Global,
    variable: u32,
    value: &NodeBox,
    part: &NodeBox,
) -> Result<NodeBox, AllocError>
    ensures { IfOk result (λ n. n ≡ substituted variable value.now part.now) }
{
    if part.is_known_closed() {
        part.share()
    } else if is_use(variable, part.get()) {
        value.share()
    } else {
        NodeBox::new(alloc, in_term(alloc, variable, value, part.get())?)
    }
}

#[cycle(substitute)]
fn in_term(alloc: Global, variable: u32, value: &NodeBox, term: &Node) -> Result<Node, AllocError>
    ensures { IfOk result (λ n. n ≡ substituted variable value.now term.now) }
{
    match term.open_boxes() {
        Opened::Leaf(form) => at_leaf(alloc, variable, value, &form),
        Opened::Unary(form, first) => {
            let bound = form.binds(variable);
            let copied = form.copy()?;
            Ok(Node::unary(copied, in_part(alloc, variable, value, bound, first)?))
        }
        Opened::Binary(form, first, second) => {
            let bound = form.binds(variable);
            Ok(Node::binary(
                form,
                in_part(alloc, variable, value, false, first)?,
                in_part(alloc, variable, value, bound, second)?,
            ))
        }
        Opened::Ternary(form, first, second, third) => {
            let in_second = form.binds_in_second(variable);
            let in_third = form.binds_in_third(variable);
            Ok(Node::ternary(
                form,
                in_part(alloc, variable, value, false, first)?,
                in_part(alloc, variable, value, in_second, second)?,
                in_part(alloc, variable, value, in_third, third)?,
            ))
        }
    }
}

/// The term with the closed value for each free use of the variable. Where a binder has the variable's number, nothing changes
/// in its scope. The value, and what has no free variable, is shared and not gone through.
pub fn substitute(
    alloc: Global,
    variable: u32,
    value: &Node,
    term: &Node,
) -> Result<Node, AllocError>
    requires { IsClosed value.now }
    ensures { IfOk result (λ n. n ≡ substituted variable value.now term.now) }
{
    let shared = NodeBox::closed(alloc, value.copy(alloc)?)?;
    in_term(alloc, variable, &shared, term)
}
