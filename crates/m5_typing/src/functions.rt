//! Declared functions.

use m5_terms::listed::Listed;
use m5_terms::node::Node;
use m5_terms::types::{Ty, World};

/// A declared function. One at `Any` is valid, and used at every world; another one is used at its
/// own. Its number is its place among the declarations, from 0.
#[derive(Drop)]
pub struct Function {
    pub world: World,
    pub parameter: u32,
    pub ty: Ty,
    pub result: Ty,
    pub body: Node,
}

/// Declared functions in their order.
pub type Functions = Listed<Function>;
