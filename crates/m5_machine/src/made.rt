//! What came of an instruction.

use m5_region::value::Value;

/// The value that fills the next slot, or why there is none.
#[derive(Clone, Copy, PartialEq, Eq, Debug)]
pub enum Made {
    Gives(Value),
    /// An object does not fit.
    NoRegion,
    /// A cell or a thread does not fit.
    NoTable,
    /// The table has no case for these operands.
    NoCase,
}
