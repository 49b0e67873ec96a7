//! Terms that are known to have no free variable.

ghost use Rattle.std.specs.Prelude.{IsTrue};
ghost use Rattle.m5_terms.specs.Closed.{IsClosed};

use crate::node::{Node, NodeBox};
use crate::opened::{LeafView, Opened};

/// Whether both parts are known to be closed.
fn are_known_closed(first: &NodeBox, second: &NodeBox) -> bool
    ensures first { IsTrue result → IsClosed first.now }
    ensures second { IsTrue result → IsClosed second.now }
{
    first.is_known_closed() && second.is_known_closed()
}

/// Whether no leaf is a variable and each part is known to be closed. A function whose body has its parameter is not known so.
pub fn is_known_closed(node: &Node) -> bool
    ensures { IsTrue result → IsClosed node.now }
{
    match node.open_boxes() {
        Opened::Leaf(LeafView::Var(_)) | Opened::Leaf(LeafView::Valid(_)) => false,
        Opened::Leaf(_) => true,
        Opened::Unary(_, first) => first.is_known_closed(),
        Opened::Binary(_, first, second) => are_known_closed(first, second),
        Opened::Ternary(_, first, second, third) => {
            first.is_known_closed() && are_known_closed(second, third)
        }
    }
}
