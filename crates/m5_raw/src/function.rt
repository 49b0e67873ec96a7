//! Declared functions whose names are resolved.

use crate::node::Node;
use m5_lex::Place;
use m5_terms::types::{Ty, World};

/// A declared function, with the place of its `fun`. One that is valid everywhere has the world Any. Its number is its
/// place among the declarations, from 0.
#[derive(Drop)]
pub struct Function {
    pub place: Place,
    pub world: World,
    pub parameter: u32,
    pub ty: Ty,
    pub result: Ty,
    pub body: Node,
}
