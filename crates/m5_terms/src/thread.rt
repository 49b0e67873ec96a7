//! Threads of a run.

use crate::listed::Listed;
use crate::node::Node;
use crate::types::World;

/// What waits for a value. The parts of a `Part`'s node before part `hole`, counted from 0, are
/// values, and that part is being evaluated. A `Return` sends the value to that world.
#[derive(Drop)]
pub enum Frame {
    Part { world: World, node: Node, hole: u32 },
    Return(World),
}

/// The frames of a thread, the top one last.
pub type Frames = Listed<Frame>;

/// What a thread is at: a term to evaluate at a world, or a value that comes back there.
#[derive(Drop)]
pub enum Focus {
    Eval(World, Node),
    Returned(World, Node),
}

/// A thread of a site, its frames from the bottom to the top: the last one waits for the focus.
#[derive(Drop)]
pub struct Thread {
    pub frames: Frames,
    pub focus: Focus,
}
