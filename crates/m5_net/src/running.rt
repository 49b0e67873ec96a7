//! A run on its way, and one turn of one of its sites.

ghost use Rattle.std.specs.Prelude.{ℕ, length, All, IfOk};
ghost use Rattle.m5_network.specs.Kinds.{IsAmong};
ghost use Rattle.m5_site.specs.declared.state.Limits.{Limits};
ghost use Rattle.m5_net.specs.Turning.{Net};
ghost use Rattle.m5_net.specs.Running.{StandsFor, IsReady, IsNamed, StaysReady, TurnEnds, TurnsEnd};

use crate::sites::{SessionSites, put_site, take_site};
use crate::turn::{Turned, turn};
use m5_script::items::SiteName;
use m5_shared::shared::Shared;
use m5_site::object::Object;
use std::alloc::{AllocError, Global};

/// The sites of a run, and the board that they share with its history so far.
#[derive(Drop)]
pub struct Running {
    pub sites: Vec<SessionSites>,
    pub shared: Shared,
}

/// Whether the run goes on, or at a site the block of a label does what has no meaning.
#[derive(Clone, Copy, Debug, PartialEq, Eq)]
pub enum Going {
    On,
    Wrong(SiteName, u16),
}

/// One turn of a site; that of a stopped one is skipped.
pub fn take_turn(
    alloc: Global,
    object: &Object,
    running: &mut Running,
    name: SiteName,
) -> Result<Going, AllocError>
    requires ready { IsReady object.now running.old }
    requires name { IsNamed (length running.old.sites.items) name }
    ensures turned { (n : Limits) (count : ℕ) (N : Net object.now n) → StandsFor object.now n count running.old N → IsAmong count name.session name.world → IfOk result (TurnEnds object.now n count N name running.old running.new) }
    ensures ready { IfOk result (λ g. StaysReady object.now running.old running.new) }
{
    let Some(site) = take_site(&mut running.sites, name) else {
        return Ok(Going::On);
    };
    match turn(alloc, object, &mut running.shared, site)? {
        Turned::Acts(left) => {
            put_site(&mut running.sites, name, left);
            Ok(Going::On)
        }
        Turned::Rests(site) => {
            put_site(&mut running.sites, name, Some(site));
            Ok(Going::On)
        }
        Turned::Wrong(label) => Ok(Going::Wrong(name, label)),
    }
}

/// One turn of each site, in their order.
pub fn take_turns(
    alloc: Global,
    object: &Object,
    running: &mut Running,
    names: &[SiteName],
) -> Result<Going, AllocError>
    requires ready { IsReady object.now running.old }
    requires names { All (IsNamed (length running.old.sites.items)) names.now }
    ensures turned { (n : Limits) (count : ℕ) (N : Net object.now n) → StandsFor object.now n count running.old N → All (λ (x : SiteName). IsAmong count x.session x.world) names.now → IfOk result (TurnsEnd object.now n count N names.now running.old running.new) }
    ensures ready { IfOk result (λ g. StaysReady object.now running.old running.new) }
{
    'turns: for name in names {
        match take_turn(alloc, object, running, *name)? {
            Going::On => {}
            Going::Wrong(site, label) => return Ok(Going::Wrong(site, label)),
        }
    }
    Ok(Going::On)
}
