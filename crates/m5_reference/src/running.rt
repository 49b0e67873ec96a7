//! A run on its way, and one turn of each of some sites.

ghost use Rattle.std.specs.Prelude.{length, All, IfOk};
ghost use Rattle.m5_script.specs.Scenario.{Scenario};
ghost use Rattle.m5_network.specs.Run.{Network, IsSite};
ghost use Rattle.m5_reference.specs.Moments.{HasLimits};
ghost use Rattle.m5_reference.specs.Running.{StandsFor, IsReady, IsNamed, StaysReady, TurnEnds, TurnsEnd};

use crate::limits::Limits;
use crate::turn::{Turned, turn};
use m5_board::board::Board;
use m5_script::items::SiteName;
use m5_sites::sites::{SessionSites, put_site, take_site};
use m5_source_site::item::LinkItem;
use m5_source_site::measured::MeasuredProgram;
use m5_terms::ask::{Entries, Entry};
use std::alloc::{AllocError, Global};

/// The sites and the board of a run, and what its history shows so far.
#[derive(Drop)]
pub struct Running {
    pub sites: Vec<SessionSites>,
    pub board: Board<LinkItem>,
    pub entries: Entries,
}

/// Whether the run goes on, or the meaning of some site has no way to go on.
#[derive(Clone, Copy, Debug, PartialEq, Eq)]
pub enum Going {
    On,
    Wrong,
}

/// One turn of a site; that of a stopped one is skipped.
pub fn take_turn(
    alloc: Global,
    program: &MeasuredProgram<'_>,
    limits: Limits,
    running: &mut Running,
    name: SiteName,
) -> Result<Going, AllocError>
    requires ready { IsReady running.old }
    requires name { IsNamed (length running.old.sites.items) name }
    ensures turned { (S : Scenario) (N : Network) → HasLimits S limits → StandsFor program.now S running.old N → IsSite S name.session name.world → IfOk result (TurnEnds program.now S N name running.old running.new) }
    ensures ready { IfOk result (λ g. StaysReady running.old running.new) }
{
    let Some(site) = take_site(&mut running.sites, name) else {
        return Ok(Going::On);
    };
    match turn(alloc, program, limits, &mut running.board, name, site)? {
        Turned::Acts(left, act) => {
            put_site(&mut running.sites, name, left);
            let SiteName { session, world } = name;
            running.entries.push(Entry {
                session,
                world,
                act,
            })?;
            Ok(Going::On)
        }
        Turned::Rests(site) => {
            put_site(&mut running.sites, name, Some(site));
            Ok(Going::On)
        }
        Turned::Wrong => Ok(Going::Wrong),
    }
}

/// One turn of each site, in their order.
pub fn take_turns(
    alloc: Global,
    program: &MeasuredProgram<'_>,
    limits: Limits,
    running: &mut Running,
    names: &[SiteName],
) -> Result<Going, AllocError>
    requires ready { IsReady running.old }
    requires names { All (IsNamed (length running.old.sites.items)) names.now }
    ensures turned { (S : Scenario) (N : Network) → HasLimits S limits → StandsFor program.now S running.old N → All (λ (x : SiteName). IsSite S x.session x.world) names.now → IfOk result (TurnsEnd program.now S N names.now running.old running.new) }
    ensures ready { IfOk result (λ g. StaysReady running.old running.new) }
{
    'turns: for name in names {
        match take_turn(alloc, program, limits, running, *name)? {
            Going::On => {}
            Going::Wrong => return Ok(Going::Wrong),
        }
    }
    Ok(Going::On)
}
