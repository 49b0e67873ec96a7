//! How much a bench holds.

/// The most units of a region.
pub const MOST_UNITS: u64 = 1_048_640;

/// The most cells of a site, and the most threads that are ready there.
pub const MOST_ITEMS: usize = 4096;

/// The most slots of a running block.
pub const MOST_SLOTS: usize = 65536;
