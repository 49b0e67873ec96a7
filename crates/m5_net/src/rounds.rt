//! Rounds over all sites, until one finds nothing.

ghost use Rattle.std.specs.Prelude.{ℕ, length, All, IfOk};
ghost use Rattle.m5_network.specs.Kinds.{IsAmong};
ghost use Rattle.m5_site.specs.declared.state.Limits.{Limits};
ghost use Rattle.m5_net.specs.Turning.{Net};
ghost use Rattle.m5_net.specs.Running.{StandsFor, IsReady, IsNamed, StaysReady, RoundsEnd};

use crate::running::{Going, Running, take_turns};
use m5_script::items::SiteName;
use m5_site::object::Object;
use std::alloc::{AllocError, Global};

/// Rounds of turns of these sites, until one makes no deed. Each round but the last makes the
/// history longer, so no memory holds more rounds than are counted here.
pub fn take_rounds(
    alloc: Global,
    object: &Object,
    running: &mut Running,
    names: &[SiteName],
) -> Result<Going, AllocError>
    requires ready { IsReady object.now running.old }
    requires names { All (IsNamed (length running.old.sites.items)) names.now }
    ensures turned { (n : Limits) (count : ℕ) (N : Net object.now n) → StandsFor object.now n count running.old N → All (λ (x : SiteName). IsAmong count x.session x.world) names.now → IfOk result (RoundsEnd object.now n count N names.now running.old running.new) }
    ensures ready { IfOk result (λ g. StaysReady object.now running.old running.new) }
{
    'rounds: for _round in 0..u64::MAX {
        let before = running.shared.count();
        match take_turns(alloc, object, running, names)? {
            Going::On => {}
            Going::Wrong(site, label) => return Ok(Going::Wrong(site, label)),
        }
        if running.shared.count() == before {
            return Ok(Going::On);
        }
    }
    Err(AllocError)
}
