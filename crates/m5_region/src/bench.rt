//! What a machine works on.

ghost use Rattle.std.specs.Prelude.{◌≡◌, ◌≤◌, [], IfOk};
ghost use Rattle.m5_region.specs.Bench.{fresh_bench};

use crate::cells::Cells;
use crate::limits::MOST_UNITS;
use crate::queue::Queue;
use crate::region::Region;
use crate::slots::Slots;
use std::alloc::{AllocError, Global};

/// The objects, cells and threads of a site, the slots of its running block, and how many blocks
/// may still be entered.
#[derive(Drop)]
pub struct Bench {
    pub region: Region,
    pub cells: Cells,
    pub threads: Queue,
    pub slots: Slots,
    pub fuel: u64,
}

impl Bench {
    /// An empty bench with this many units and this fuel, and all its room reserved.
    pub fn make(alloc: Global, units: u64, fuel: u64) -> Result<Bench, AllocError>
        requires { units ≤ MOST_UNITS }
        ensures { IfOk result (λ bench. bench ≡ fresh_bench units fuel) }
    {
        let region = Region::make(alloc, units)?;
        let cells = Cells::make(alloc)?;
        let threads = Queue::make(alloc)?;
        let slots = Slots::make(alloc)?;
        Ok(Bench {
            region,
            cells,
            threads,
            slots,
            fuel,
        })
    }
}
