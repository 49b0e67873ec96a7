//! What came of a block's run.

use m5_region::value::Value;

/// The block to enter next, or how the thread's run ended.
#[derive(Clone, Copy, PartialEq, Eq, Debug)]
pub enum Next {
    /// The closure to enter, and its argument.
    Enters(Value, Value),
    /// The primitive's code, its argument, and the closure that the answer enters.
    Asks(u8, Value, Value),
    /// The world, the closure and its argument.
    Sends(u8, Value, Value),
    Ended,
    FullRegion,
    FullTable,
    NoCase,
}

/// Where a step leads: to another place of the block, or out of it.
#[derive(Clone, Copy, PartialEq, Eq, Debug)]
pub enum Led {
    On(u32),
    Out(Next),
}
