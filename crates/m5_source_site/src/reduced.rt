//! What a node becomes whose evaluated parts are values.

use m5_terms::node::Node;
use m5_terms::text::Text;
use m5_terms::types::World;

/// A value, a text that is made, a term to go on with, a deed on a cell, a move to another world,
/// a primitive's ask, or nothing that the rules allow.
#[derive(Drop)]
pub enum Reduced {
    Gives(Node),
    MakesText(Text),
    GoesOn(Node),
    MakesCell(Node),
    Loads(u32),
    Stores(u32, Node),
    Leaves(World, Node),
    Says(Text),
    Shows(Text),
    Sets(Text, Text),
    Writes(Text, Text),
    Gets(Text),
    Reads(Text),
    Handles(Text, Node),
    Watches(Text, Node),
    Wrong,
}
