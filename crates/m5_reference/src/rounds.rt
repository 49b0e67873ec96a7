//! Rounds over all sites, until one finds nothing.

ghost use Rattle.std.specs.Prelude.{length, All, IfOk};
ghost use Rattle.m5_script.specs.Scenario.{Scenario};
ghost use Rattle.m5_network.specs.Run.{Network, IsSite};
ghost use Rattle.m5_reference.specs.Moments.{HasLimits};
ghost use Rattle.m5_reference.specs.Running.{StandsFor, IsReady, IsNamed, StaysReady, RoundsEnd};

use crate::limits::Limits;
use crate::running::{Going, Running, take_turns};
use m5_script::items::SiteName;
use m5_source_site::measured::MeasuredProgram;
use std::alloc::{AllocError, Global};

/// Rounds of turns of these sites, until one makes no deed. Each round but the last makes the
/// history longer, so no memory holds more rounds than are counted here.
pub fn take_rounds(
    alloc: Global,
    program: &MeasuredProgram<'_>,
    limits: Limits,
    running: &mut Running,
    names: &[SiteName],
) -> Result<Going, AllocError>
    requires ready { IsReady running.old }
    requires names { All (IsNamed (length running.old.sites.items)) names.now }
    ensures turned { (S : Scenario) (N : Network) → HasLimits S limits → StandsFor program.now S running.old N → All (λ (x : SiteName). IsSite S x.session x.world) names.now → IfOk result (RoundsEnd program.now S N names.now running.old running.new) }
    ensures ready { IfOk result (λ g. StaysReady running.old running.new) }
{
    'rounds: for _round in 0..u64::MAX {
        let before = running.entries.count();
        match take_turns(alloc, program, limits, running, names)? {
            Going::On => {}
            Going::Wrong => return Ok(Going::Wrong),
        }
        if running.entries.count() == before {
            return Ok(Going::On);
        }
    }
    Err(AllocError)
}
