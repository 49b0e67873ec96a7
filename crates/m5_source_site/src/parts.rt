//! The parts of a node that are evaluated, from left to right.

ghost use Rattle.std.specs.Prelude.{◌≡◌, ◌≤◌, IfOk};
ghost use Rattle.m5_terms.specs.Opened.{viewed_unary};
ghost use Rattle.m5_meaning.specs.Parts.{unary_parts, binary_parts, parts, part, fill, inner_world};

use m5_terms::form::BinaryForm;
use m5_terms::node::{Node, NodeBox};
use m5_terms::opened::{Opened, UnaryView};
use m5_terms::taken::Taken;
use m5_terms::types::World;
use std::alloc::{AllocError, Global};

fn count_of_unary(form: &UnaryView<'_>) -> u32
    ensures { result ≡ unary_parts (viewed_unary form.now) }
{
    match form {
        UnaryView::Fn(_, _) | UnaryView::Rec(_, _, _, _) | UnaryView::Spawn | UnaryView::Held(_) =>
            0,
        _ => 1,
    }
}

fn count_of_binary(form: BinaryForm) -> u32
    ensures { result ≡ binary_parts form }
{
    match form {
        BinaryForm::Call
        | BinaryForm::Pair
        | BinaryForm::Cons
        | BinaryForm::Store
        | BinaryForm::Binary(_) => 2,
        _ => 1,
    }
}

/// How many parts of the node are evaluated.
pub(crate) fn count_of_parts(node: &Node) -> u32
    ensures { result ≡ parts node.now }
{
    match node.open() {
        Opened::Leaf(_) => 0,
        Opened::Unary(form, _) => count_of_unary(&form),
        Opened::Binary(form, _, _) => count_of_binary(form),
        Opened::Ternary(_, _, _, _) => 1,
    }
}

/// A copy of the part at a place, from 0.
pub(crate) fn copy_part(alloc: Global, node: &Node, hole: u32) -> Result<Node, AllocError>
    ensures { IfOk result (λ n. n ≡ part node.now hole) }
{
    match node.open() {
        Opened::Leaf(_) => node.copy(alloc),
        Opened::Unary(_, first) => first.copy(alloc),
        Opened::Binary(_, first, second) => {
            if hole == 0 {
                first.copy(alloc)
            } else {
                second.copy(alloc)
            }
        }
        Opened::Ternary(_, first, _, _) => first.copy(alloc),
    }
}

/// The node with a value in that place.
pub(crate) fn filled(alloc: Global, node: Node, hole: u32, value: Node) -> Result<Node, AllocError>
    ensures { IfOk result (λ n. n ≡ fill node hole value) }
{
    let kept = NodeBox::new(alloc, value)?;
    match node.take() {
        Taken::Leaf(form) => Ok(Node::leaf(form)),
        Taken::Unary(form, _) => Ok(Node::unary(form, kept)),
        Taken::Binary(form, first, second) => {
            if hole == 0 {
                Ok(Node::binary(form, kept, second))
            } else {
                Ok(Node::binary(form, first, kept))
            }
        }
        Taken::Ternary(form, _, second, third) => Ok(Node::ternary(form, kept, second, third)),
    }
}

/// The world at which the parts are evaluated: any in a sham, else the node's own.
pub(crate) fn world_of_parts(node: &Node, world: World) -> World
    ensures { result ≡ inner_world node.now world }
{
    match node.open() {
        Opened::Unary(UnaryView::Sham, _) => World::Any,
        _ => world,
    }
}
