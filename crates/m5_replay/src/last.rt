//! Checking a last line that names no place.

ghost use Rattle.std.specs.Prelude.{◌≡◌, ◌≤◌, ℕ, ◌+◌, ◌-◌, ◌++◌, length, codes, true, None, IfOk, IsTrue, ◌↔◌, List};
ghost use Rattle.m5_terms.specs.Worlds.{IsSiteWorld};
ghost use Rattle.m5_terms.specs.declared.ask.AskOf.TheVariants as ask;
ghost use Rattle.m5_terms.specs.declared.ask.AnswerOf.TheVariants as answer;
ghost use Rattle.m5_terms.specs.declared.types.World.{World as WorldOf};
ghost use Rattle.m5_meaning.specs.Site.{Program as ProgramOf, Item as ItemOf};
ghost use Rattle.m5_script.specs.Scenario.{Scenario};
ghost use Rattle.m5_script.specs.Trace.{last_words};
ghost use Rattle.m5_network.specs.Board.{answer_of};
ghost use Rattle.m5_network.specs.Claim.{ending};
ghost use Rattle.m5_network.specs.Entries.{Deed};
ghost use Rattle.m5_network.specs.Plain.{sites_of};
ghost use Rattle.m5_network.specs.Run.{Network, IsSite};
ghost use Rattle.m5_board.specs.Boards.{board_of, IsSession};
ghost use Rattle.m5_replay.specs.code.Looking.{HasLimits, SettlesTo, is_look};
ghost use Rattle.m5_sites.specs.ClosedSites.{IsClosedBoard};
ghost use Rattle.m5_sites.specs.Sites.{kept, site_at, with_site_at};
ghost use Rattle.m5_replay.specs.code.Running.{StandsAt, IsReady, IsCheckedLast, IsRestSeen, EndsRun, AllEnd};

use crate::check::Checked;
use crate::limits::Limits;
use crate::running::Running;
use crate::settle::{Settled, Settling, settle};
use m5_board::board::Board;
use m5_script::items::SiteName;
use m5_script::put_last;
use m5_sites::names::all_sites;
use m5_sites::resume::is_nothing;
use m5_sites::sites::take_site;
use m5_source_site::item::LinkItem;
use m5_source_site::measured::MeasuredProgram;
use m5_terms::ask::{AskOf, End};
use std::alloc::{AllocError, Global};

/// Whether the board has nothing for a look of this site.
fn finds_nothing(
    alloc: Global,
    board: &mut Board<LinkItem>,
    name: SiteName,
) -> Result<bool, AllocError>
    requires session { IsSession name.session board.old.desks }
    requires world { IsSiteWorld name.world }
    ensures reply { IfOk result (λ b. IsTrue b ↔ ((answer_of (board_of board.old) name.session name.world ask.Take).reply ≡ answer.Nothing)) }
    ensures board { IfOk result (λ b. board_of board.new ≡ (answer_of (board_of board.old) name.session name.world ask.Take).board) }
    ensures count { length board.new.desks ≡ length board.old.desks }
{
    let answered = board.answer(alloc, name.session, name.world, AskOf::Take)?;
    Ok(is_nothing(&answered.reply))
}

/// Whether the settling ended at a look for something new.
fn is_look(settled: &Settled) -> bool
    ensures { result ≡ is_look settled.now }
{
    matches!(settled, Settled::Asks(AskOf::Take, _))
}

/// Whether a site that has come so far is at rest.
fn rests(
    alloc: Global,
    board: &mut Board<LinkItem>,
    name: SiteName,
    settled: &Settled,
) -> Result<bool, AllocError>
    requires session { IsSession name.session board.old.desks }
    requires world { IsSiteWorld name.world }
    ensures rests { (P : ProgramOf) (S : Scenario) (N : Network) (before weight : ℕ) → board_of board.old ≡ N.board → SettlesTo P S name.world None before (N.site name.session name.world) weight settled.now → IfOk result (IsRestSeen P N name board.new) }
    ensures closed_board { IsClosedBoard (board_of board.old) → IfOk result (λ b. IsClosedBoard (board_of board.new)) }
    ensures count { length board.new.desks ≡ length board.old.desks }
{
    if is_look(settled) {
        finds_nothing(alloc, board, name)
    } else {
        Ok(false)
    }
}

/// What came before, and what the site has gained since its weight was `start`.
fn with_gain(before: u64, start: u64, now: u64) -> Result<u64, AllocError>
    ensures { IfOk result (λ n. n ≡ before + (now - start)) }
{
    before
        .checked_add(now.saturating_sub(start))
        .ok_or(AllocError)
}

/// Runs the site to its next ask, unless it has stopped. The answer is whether all sites so far are at rest or stopped,
/// or nothing where a moment is beyond the budget.
fn run_to_ask(
    alloc: Global,
    program: &MeasuredProgram<'_>,
    limits: Limits,
    running: &mut Running,
    quiet: bool,
    name: SiteName,
) -> Result<Option<bool>, AllocError>
    requires ready { IsReady limits.sessions running.old }
    requires session { (1 ≤ name.session) × (name.session ≤ limits.sessions) }
    requires world { IsSiteWorld name.world }
    ensures run { (S : Scenario) (N : Network) → HasLimits S limits → site_at running.old.sites.items name.session name.world ≡ kept (N.site name.session name.world) → (quiet ≡ true → board_of running.old.board ≡ N.board) → IfOk result (EndsRun program.now S N name quiet running.old running.new) }
    ensures left { IfOk result (λ o. site_at running.new.sites.items ≡ with_site_at name.session name.world None (site_at running.old.sites.items)) }
    ensures ready { IfOk result (λ o. IsReady limits.sessions running.new) }
    ensures stops { IfOk result (λ o. running.new.stops ≡ running.old.stops) }
{
    let Some(site) = take_site(&mut running.sites, name) else {
        return Ok(Some(quiet));
    };
    let start = site.weight();
    match settle(
        alloc,
        program,
        limits,
        name.world,
        None,
        running.weight,
        site,
    )? {
        Settling::Ends(weight, settled) => {
            running.weight = with_gain(running.weight, start, weight)?;
            if !quiet {
                return Ok(Some(false));
            }
            Ok(Some(rests(alloc, &mut running.board, name, &settled)?))
        }
        Settling::Beyond => Ok(None),
    }
}

/// Runs these sites so, in their order.
fn run_all(
    alloc: Global,
    program: &MeasuredProgram<'_>,
    limits: Limits,
    running: &mut Running,
    names: &[SiteName],
) -> Result<Option<bool>, AllocError>
    requires ready { IsReady limits.sessions running.old }
    requires names { names.now ≡ sites_of limits.sessions }
    ensures run { (S : Scenario) (N : Network) → HasLimits S limits → board_of running.old.board ≡ N.board → ((s : ℕ) (w : WorldOf) → IsSite S s w → site_at running.old.sites.items s w ≡ kept (N.site s w)) → IfOk result (AllEnd program.now S N (sites_of S.sessions) running.old running.new) }
    ensures stops { IfOk result (λ o. running.new.stops ≡ running.old.stops) }
{
    let mut quiet = true;
    'sites: for name in names {
        match run_to_ask(alloc, program, limits, running, quiet, *name)? {
            Some(now) => quiet = now,
            None => return Ok(None),
        }
    }
    Ok(Some(quiet))
}

/// Whether these bytes are the last line where so many sites have stopped.
fn is_due(alloc: Global, line: &[u8], stops: u32) -> Result<bool, AllocError>
    ensures { IfOk result (λ b. IsTrue b ↔ (line.now ≡ last_words (ending stops) ++ codes "\n")) }
{
    let mut printed = Vec::new(alloc);
    let end = if stops == 0 {
        End::Rest
    } else {
        End::Stopped(stops)
    };
    put_last(alloc, &mut printed, &end)?;
    printed.push(b'\n')?;
    Ok(line == printed.as_slice())
}

/// Checks a last line that names no place, which ends the run.
pub fn check_last(
    alloc: Global,
    program: &MeasuredProgram<'_>,
    limits: Limits,
    running: &mut Running,
    line: &[u8],
) -> Result<Checked, AllocError>
    requires ready { IsReady limits.sessions running.old }
    ensures { (S : Scenario) (N : Network) (before : ℕ) (ds : List (Deed ItemOf)) → HasLimits S limits → StandsAt S running.old N before ds → IfOk result (IsCheckedLast program.now S N before ds line.now) }
{
    let names = all_sites(alloc, limits.sessions)?;
    match run_all(alloc, program, limits, running, names.as_slice())? {
        Some(true) => {}
        Some(false) => return Ok(Checked::Differs),
        None => return Ok(Checked::Beyond),
    }
    if is_due(alloc, line, running.stops)? {
        Ok(Checked::Fits)
    } else {
        Ok(Checked::Differs)
    }
}
