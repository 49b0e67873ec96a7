//! The depth of a term.

ghost use Rattle.std.specs.Prelude.{◌≡◌, ◌+◌, ◌^◌, ◌-◌, max, min};
ghost use Rattle.m5_terms.specs.Depth.{depth};

use crate::node::Node;
use crate::opened::Opened;

/// The nodes from the root to the deepest leaf, both included; `u64::MAX` where they are more. The parts know theirs.
pub fn depth_of_node(node: &Node) -> u64
    ensures { result ≡ min (depth node.now) (2 ^ 64 - 1) }
{
    match node.open_boxes() {
        Opened::Leaf(_) => 1,
        Opened::Unary(_, first) => 1u64.saturating_add(first.depth()),
        Opened::Binary(_, first, second) => {
            1u64.saturating_add(first.depth().max(second.depth()))
        }
        Opened::Ternary(_, first, second, third) => {
            let others = second.depth().max(third.depth());
            1u64.saturating_add(first.depth().max(others))
        }
    }
}
