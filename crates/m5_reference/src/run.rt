//! The run of a program and a script by the meaning itself.

ghost use Rattle.std.specs.Prelude.{◌≡◌, IfOk, sum_by};
ghost use Rattle.m5_terms.specs.declared.ask.Entry.{Entry as EntryOf};
ghost use Rattle.m5_script.specs.Scenario.{IsScript};
ghost use Rattle.m5_network.specs.Claim.{stop_count};
ghost use Rattle.m5_network.specs.Run.{Network};
ghost use Rattle.m5_reference.specs.Budget.{with_lesser_budget};
ghost use Rattle.m5_reference.specs.Finishing.{Opens, OrderEnds, end_of};
ghost use Rattle.m5_reference.specs.Moments.{HasLimits};
ghost use Rattle.m5_reference.specs.Reference.{IsReferenceRun};
ghost use Rattle.m5_reference.specs.Running.{IsReady, StandsFor};

use crate::limits::Limits;
use crate::rounds::take_rounds;
use crate::running::{Going, Running, take_turns};
use m5_board::board::Board;
use m5_script::script::Script;
use m5_sites::names::all_sites;
use m5_sites::opening::open_sites;
use m5_source_site::measured::MeasuredProgram;
use m5_terms::ask::{Act, End, Entries, Entry, History};
use m5_typing::program::Program;
use std::alloc::{AllocError, Global};

/// The most steps that a site has here, whatever the script says: each step copies terms.
const STEPS: u64 = 5_000;

/// The numbers for every site.
fn limits_of(script: &Script) -> Limits
    ensures limits { HasLimits (with_lesser_budget script.now) result }
    ensures script { IsScript script.now }
{
    Limits {
        steps: script.steps.min(STEPS),
        region: script.region,
    }
}

/// The run as it opens.
fn open(
    alloc: Global,
    program: &MeasuredProgram<'_>,
    script: &Script,
) -> Result<Running, AllocError>
    ensures { IfOk result (Opens program.now (with_lesser_budget script.now)) }
{
    program.closed_holds();
    Ok(Running {
        sites: open_sites(alloc, program, script.sessions)?,
        board: Board::opening(alloc, script)?,
        entries: Entries::make(alloc),
    })
}

/// The turns that the script names, and then rounds until one finds nothing.
fn go(
    alloc: Global,
    program: &MeasuredProgram<'_>,
    limits: Limits,
    running: &mut Running,
    script: &Script,
) -> Result<Going, AllocError>
    requires limits { HasLimits (with_lesser_budget script.now) limits }
    requires opens { Opens program.now (with_lesser_budget script.now) running.old }
    requires script { IsScript script.now }
    ensures { (N : Network) → StandsFor program.now (with_lesser_budget script.now) running.old N → IfOk result (OrderEnds program.now (with_lesser_budget script.now) N running.old running.new) }
{
    match take_turns(alloc, program, limits, running, script.order.as_slice())? {
        Going::On => {}
        Going::Wrong => return Ok(Going::Wrong),
    }
    let names = all_sites(alloc, script.sessions)?;
    take_rounds(alloc, program, limits, running, names.as_slice())
}

/// How many entries are stops.
fn count_stops(entries: &[Entry]) -> Result<u32, AllocError>
    ensures { IfOk result (λ n. n ≡ sum_by (λ (e : EntryOf). stop_count e.act) entries.now) }
{
    let mut count: u32 = 0;
    for entry in entries {
        if matches!(entry.act, Act::Stop(_)) {
            count = count.checked_add(1).ok_or(AllocError)?;
        }
    }
    Ok(count)
}

/// How a history with these entries ends.
fn end_with(entries: &Entries) -> Result<End, AllocError>
    ensures { IfOk result (λ e. e ≡ end_of entries.now) }
{
    match count_stops(entries.as_slice())? {
        0 => Ok(End::Rest),
        count => Ok(End::Stopped(count)),
    }
}

/// The run of the program and the script by the meaning itself, in the plain order: a site has the
/// lesser of the script's steps and 5,000, and with a thread it stops at the first moment at which
/// it may, its steps being looked at before its region.
pub fn reference_run(
    alloc: Global,
    program: &Program,
    script: &Script,
) -> Result<History, AllocError>
    ensures { IfOk result (IsReferenceRun program.now (with_lesser_budget script.now)) }
{
    let _functions = program.functions();
    let measured = MeasuredProgram::of(program);
    let limits = limits_of(script);
    let mut running = open(alloc, &measured, script)?;
    match go(alloc, &measured, limits, &mut running, script)? {
        Going::On => {}
        Going::Wrong => unreachable!(),
    }
    let end = end_with(&running.entries)?;
    Ok(History {
        entries: running.entries,
        end,
    })
}
