//! How a machine's run of a thread ends.

use crate::value::Value;

/// What came of running a site's front thread.
#[derive(Clone, Copy, PartialEq, Eq, Debug)]
pub enum Out {
    /// It calls the primitive of this code with this argument; the answer enters the closure
    /// `next`.
    Asks {
        prim: u8,
        argument: Value,
        next: Value,
    },
    /// It leaves to a world, 0 for home, 1 for server and 2 for panel, to enter this closure with
    /// this argument there. `label` is that of the block that sends it.
    Sends {
        to: u8,
        code: Value,
        argument: Value,
        label: u16,
    },
    /// It ended.
    Ended,
    /// A block is to be entered, and the fuel is 0.
    Spent,
    /// An object does not fit into the region.
    FullRegion,
    /// A cell or a thread does not fit.
    FullTable,
    /// The block of this label does what has no meaning.
    Wrong(u16),
}
