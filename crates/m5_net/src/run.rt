//! The run of an object and a script in the plain order.

ghost use Rattle.std.specs.Prelude.{◌≡◌, IfOk};
ghost use Rattle.m5_terms.specs.declared.ask.End.TheVariants as end;
ghost use Rattle.m5_script.specs.Scenario.{IsScript};
ghost use Rattle.m5_site.specs.Kind.{limits_of};
ghost use Rattle.m5_net.specs.Run.{IsNetRun};
ghost use Rattle.m5_net.specs.Running.{Opens, OrderEnds};

use crate::opening::open_sites;
use crate::rounds::take_rounds;
use crate::running::{Going, Running, take_turns};
use m5_script::items::SiteName;
use m5_script::script::Script;
use m5_shared::shared::Shared;
use m5_site::object::Object;
use m5_site::state::Limits;
use m5_sites::names::all_sites;
use m5_terms::ask::{End, History};
use std::alloc::{AllocError, Global};

/// The numbers for every site.
fn limits_of(script: &Script) -> Limits
    ensures limits { result ≡ limits_of script.now }
    ensures script { IsScript script.now }
{
    Limits {
        steps: script.steps,
        region: script.region,
    }
}

/// The run as it opens.
fn open(
    alloc: Global,
    object: &Object,
    script: &Script,
    limits: Limits,
) -> Result<Running, AllocError>
    requires limits { limits ≡ limits_of script.now }
    requires script { IsScript script.now }
    ensures { IfOk result (Opens object.now script.now) }
{
    Ok(Running {
        sites: open_sites(alloc, object, script.sessions, limits)?,
        shared: Shared::make(alloc, script)?,
    })
}

/// The turns that the script names, and then rounds until one finds nothing.
fn go(
    alloc: Global,
    object: &Object,
    running: &mut Running,
    script: &Script,
) -> Result<Going, AllocError>
    requires opens { Opens object.now script.now running.old }
    requires script { IsScript script.now }
    ensures { IfOk result (OrderEnds object.now script.now running.old running.new) }
{
    match take_turns(alloc, object, running, script.order.as_slice())? {
        Going::On => {}
        Going::Wrong(site, label) => return Ok(Going::Wrong(site, label)),
    }
    let names = all_sites(alloc, script.sessions)?;
    take_rounds(alloc, object, running, names.as_slice())
}

/// The history with the end that names a site and a label.
fn wrong_at(history: History, site: SiteName, label: u16) -> History
    ensures { result ≡ record { entries = history.entries; end = end.Wrong site.session site.world label } }
{
    let SiteName { session, world } = site;
    History {
        entries: history.entries,
        end: End::Wrong(session, world, label),
    }
}

/// The run of the object and the script in the plain order: the turns that the script names, and
/// then rounds over all sites, until one finds nothing. The history is that of a finished run. Where
/// at some turn a block does what has no meaning, the run ends at once: the history has the entries
/// up to there, and its end names the site and the block's label.
pub fn run_net(alloc: Global, object: &Object, script: &Script) -> Result<History, AllocError>
    ensures { IfOk result (IsNetRun object.now script.now) }
{
    let limits = limits_of(script);
    let mut running = open(alloc, object, script, limits)?;
    let going = go(alloc, object, &mut running, script)?;
    let history = running.shared.into_history();
    match going {
        Going::On => Ok(history),
        Going::Wrong(site, label) => Ok(wrong_at(history, site, label)),
    }
}
