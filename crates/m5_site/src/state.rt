//! What a site has, and what it waits for.

use m5_region::bench::Bench;
use m5_region::cells::Cells;
use m5_region::queue::Ready;
use m5_region::value::Value;
use m5_terms::ask::Cause;
use m5_terms::types::World;

/// A site's bench, its handlers, for which cause it is to stop since something of an answer did not
/// fit, and whether it has stopped.
#[derive(Drop)]
pub struct State {
    pub bench: Bench,
    pub handlers: Cells,
    pub due: Option<Cause>,
    pub stopped: bool,
}

/// What a site waits for an answer to.
#[derive(Clone, Copy, PartialEq, Eq, Debug)]
pub enum Wait {
    /// Nothing: it computes.
    Nothing,
    /// A primitive's call, with its argument and the closure that the answer enters.
    Call(u8, Value, Value),
    /// A send of a thread to a world.
    Send(World, Ready),
    /// A look for something new.
    Take,
    Stop(Cause),
    /// No answer: the block of this label does what has no meaning.
    Wrong(u16),
}

/// What a site needs to go on.
#[derive(Clone, Copy, PartialEq, Eq, Debug)]
pub enum Need {
    /// The answer to what `ask` tells.
    Ask,
    /// Something new.
    Take,
    /// To be stopped.
    Stop(Cause),
    /// Nothing will do: the block of this label does what has no meaning.
    Wrong(u16),
}

/// How many blocks a site may enter, and its number of region, for which it has 4 units each and 64
/// more.
#[derive(Clone, Copy, PartialEq, Eq, Debug)]
pub struct Limits {
    pub steps: u64,
    pub region: u64,
}
