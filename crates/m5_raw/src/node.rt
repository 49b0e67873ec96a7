//! Terms whose names are resolved, each node with its place.

ghost use Rattle.std.specs.Prelude.{◌≡◌, IfOk};

use m5_lex::Place;
use m5_terms::term::Term;
use std::alloc::{AllocError, Global};
use std::marker::Model;

/// A term, with the place of its phrase's first token. Contracts see it as plain data.
#[cycle(node)]
pub struct Node {
    pub place: Place,
    pub term: Term<NodeBox>,
}

/// Written out, so that a caller lets a node go by one call.
impl Drop for Node {
    #[cycle(node)]
    fn drop(self) {
        let Node { place: _, term } = self;
        drop(term);
    }
}

impl Model for Node {
    ghost use Rattle.std.specs.Prelude.{◌*◌, ◌+◌};
    ghost use Rattle.m5_raw.specs.Resolved.{Resolved, resolved_code, node_count};

    ghost Value = { Resolved };

    ghost coded = { resolved_code };

    ghost use Rattle.m5_terms.specs.TermMeaning.{parts};
    ghost use Rattle.m5_raw.specs.Resolved.{resolved_of};

    ghost view = { λ n. resolved_of n.place (parts n.term) };

    ghost size = { λ t. 2 * node_count t };

    ghost use Rattle.std.proofs.Common.{arith};

    ghost size_decreases = { λ a h. Prim.grind arith };
}

/// A node on the heap, which contracts see as its term.
#[cycle(node)]
#[derive(Drop)]
pub struct NodeBox {
    inner: Box<Node>,
}

impl Model for NodeBox {
    ghost use Rattle.std.specs.Prelude.{◌*◌, ◌+◌};
    ghost use Rattle.m5_raw.specs.Resolved.{Resolved, resolved_code, node_count};

    ghost Value = { Resolved };

    ghost coded = { resolved_code };

    ghost view = { λ b. b.inner.value };

    ghost size = { λ t. 2 * node_count t + 1 };

    ghost use Rattle.std.proofs.Common.{arith};

    ghost size_decreases = { λ a h. Prim.grind arith };
}

impl NodeBox {
    pub fn new(alloc: Global, node: Node) -> Result<NodeBox, AllocError>
        ensures { IfOk result (λ b. b ≡ node) }
    {
        Ok(NodeBox {
            inner: Box::new(alloc, node)?,
        })
    }

    /// The node itself.
    pub fn get(&self) -> &Node
        ensures { result.now ≡ self.now }
    {
        &self.inner
    }

    pub fn into_inner(self) -> Node
        ensures { result ≡ self }
    {
        let NodeBox { inner } = self;
        Box::into_inner(inner)
    }
}
