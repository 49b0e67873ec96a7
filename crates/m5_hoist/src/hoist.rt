//! Flat programs of closed ones.

ghost use Rattle.std.specs.Prelude.{◌≡◌, ◌<◌, length, Err, IfOk, IfErr};
ghost use Rattle.m5_flat.specs.Table.{blocks_of};
ghost use Rattle.m5_hoist.specs.Hoisting.{GoesOnAs};
ghost use Rattle.m5_hoist.specs.declared.hoist.HoistEnd.TheVariants.{Labels};

use m5_flat::program::{Closed, Flat};
use std::alloc::{AllocError, Global};

/// Why a program is not flat.
#[derive(Clone, Copy, PartialEq, Eq, Debug, Drop)]
pub enum HoistEnd {
    /// It has more than 65,535 labels.
    Labels,
    Memory,
}

impl From<AllocError> for HoistEnd {
    ghost use Rattle.std.specs.Prelude.{◌≡◌};
    ghost use Rattle.m5_hoist.specs.declared.hoist.HoistEnd.TheVariants.{Memory};

    ghost from_gives = { λ _ e. e ≡ Memory };

    fn from(_error: AllocError) -> HoistEnd {
        HoistEnd::Memory
    }
}

/// The same blocks, where they have at most 65,535 labels. They go on as before.
///
/// The time is proportional to the program.
pub fn hoist(alloc: Global, closed: &Closed) -> Result<Flat, HoistEnd>
    ensures same { IfOk result (λ flat. flat ≡ closed.now) }
    ensures goes_on { IfOk result (λ flat. GoesOnAs (blocks_of closed.now) (blocks_of flat)) }
    ensures few { IfErr result (λ e. e ≡ Labels → 65535 < length closed.now.labels) }
    ensures many { 65535 < length closed.now.labels → result ≡ Err Labels }
{
    let table = closed.table();
    if table.labels().len() > 65_535 {
        return Err(HoistEnd::Labels);
    }
    Ok(Flat::make(table.copy(alloc)?))
}
