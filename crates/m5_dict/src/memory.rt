//! The end of a pass that ran out of memory.

use std::alloc::{AllocError, AllocFailed};

/// Memory is wanting, or there are 2^32 lines.
#[derive(Clone, Copy, PartialEq, Eq, Debug, Drop)]
pub struct Memory;

impl From<AllocError> for Memory {
    fn from(_error: AllocError) -> Memory {
        Memory
    }
}

impl<T: Drop> From<AllocFailed<T>> for Memory {
    fn from(_error: AllocFailed<T>) -> Memory {
        Memory
    }
}
