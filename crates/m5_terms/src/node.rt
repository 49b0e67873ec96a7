//! Terms as the program keeps them.

ghost use Rattle.std.specs.Prelude.{◌≡◌, ◌^◌, ◌-◌, min, IsTrue, IfOk};
ghost use Rattle.m5_terms.specs.TermMeaning.{term_meaning};
ghost use Rattle.m5_terms.specs.Size.{node_size};
ghost use Rattle.m5_terms.specs.Closed.{IsClosed};
ghost use Rattle.m5_terms.specs.Depth.{depth};

use crate::closed::is_known_closed;
use crate::depth::depth_of_node;
use crate::size::size_of_node;
use crate::term::Term;
use std::alloc::{AllocError, Global};
use std::marker::Model;
use std::rc::Rc;

/// A term. Contracts see it as plain data, an `Expression`.
#[cycle(node)]
pub struct Node {
    pub term: Term<NodeBox>,
}

/// Written out, so that a caller lets a node go by one call.
impl Drop for Node {
    #[cycle(node)]
    fn drop(self) {
        let Node { term } = self;
        drop(term);
    }
}

impl Model for Node {
    ghost use Rattle.std.specs.Prelude.{◌*◌, ◌+◌};
    ghost use Rattle.m5_terms.specs.Expression.{Expression, expression_code, node_count};

    ghost Value = { Expression };

    ghost coded = { expression_code };

    ghost use Rattle.m5_terms.specs.TermMeaning.{term_meaning};

    ghost view = { λ n. term_meaning n.term };

    ghost size = { λ t. 2 * node_count t };

    ghost use Rattle.std.proofs.Common.{arith};

    ghost size_decreases = { λ a h. Prim.grind arith };
}

impl Node {
    /// The term itself, without its node.
    pub fn into_term(self) -> Term<NodeBox>
        ensures { term_meaning result ≡ self }
    {
        let Node { term } = self;
        term
    }
}

/// A node on the heap, which contracts see as its term. Terms that have it in common share it. Beside it stand its size, its
/// depth, and whether it is known to have no free variable, so that neither a look at those nor a substitution goes through
/// it again.
#[cycle(node)]
#[derive(Drop)]
pub struct NodeBox {
    inner: Rc<Node>,
    held_size: u64,
    held_depth: u64,
    known_closed: bool,
}

impl Model for NodeBox {
    ghost use Rattle.std.specs.Prelude.{◌≡◌, ◌*◌, ◌+◌, ◌^◌, ◌-◌, min, IsTrue};
    ghost use Rattle.m5_terms.specs.Expression.{Expression, expression_code, node_count};
    ghost use Rattle.m5_terms.specs.Size.{node_size};
    ghost use Rattle.m5_terms.specs.Closed.{IsClosed};
    ghost use Rattle.m5_terms.specs.Depth.{depth};

    ghost Value = { Expression };

    ghost coded = { expression_code };

    ghost view = { λ b. b.inner.value };

    ghost invariant = { λ b. (b.held_size ≡ min (node_size b.inner.value) (2 ^ 64 - 1)) × (b.held_depth ≡ min (depth b.inner.value) (2 ^ 64 - 1)) × (IsTrue b.known_closed → IsClosed b.inner.value) };

    ghost size = { λ t. 2 * node_count t + 1 };

    ghost use Rattle.std.proofs.Common.{arith};

    ghost size_decreases = { λ a h. Prim.grind arith };
}

impl NodeBox {
    pub fn new(alloc: Global, node: Node) -> Result<NodeBox, AllocError>
        ensures { IfOk result (λ b. b ≡ node) }
    {
        let held_size = size_of_node(&node);
        let held_depth = depth_of_node(&node);
        let known_closed = is_known_closed(&node);
        Ok(NodeBox {
            inner: Rc::new(alloc, node)?,
            held_size,
            held_depth,
            known_closed,
        })
    }

    /// A node of a closed term, which no substitution goes through.
    pub fn closed(alloc: Global, node: Node) -> Result<NodeBox, AllocError>
        requires { IsClosed node }
        ensures { IfOk result (λ b. b ≡ node) }
    {
        let held_size = size_of_node(&node);
        let held_depth = depth_of_node(&node);
        Ok(NodeBox {
            inner: Rc::new(alloc, node)?,
            held_size,
            held_depth,
            known_closed: true,
        })
    }

    pub fn get(&self) -> &Node
        ensures { result.now ≡ self.now }
    {
        &self.inner
    }

    /// One owner more of the same term.
    pub fn share(&self) -> Result<NodeBox, AllocError>
        ensures { IfOk result (λ b. b ≡ self.now) }
    {
        Ok(NodeBox {
            inner: self.inner.clone()?,
            held_size: self.held_size,
            held_depth: self.held_depth,
            known_closed: self.known_closed,
        })
    }

    /// The size of the term; `u64::MAX` where it is larger.
    pub fn size(&self) -> u64
        ensures { result ≡ min (node_size self.now) (2 ^ 64 - 1) }
    {
        self.held_size
    }

    /// The depth of the term; `u64::MAX` where it is deeper.
    pub fn depth(&self) -> u64
        ensures { result ≡ min (depth self.now) (2 ^ 64 - 1) }
    {
        self.held_depth
    }

    /// Whether the term is known to have no free variable. A closed function may be unknown.
    pub fn is_known_closed(&self) -> bool
        ensures { IsTrue result → IsClosed self.now }
    {
        self.known_closed
    }
}
