//! Checking a line that names a place.

ghost use Rattle.std.specs.Prelude.{◌≡◌, ℕ, ◌+◌, ◌-◌, ◌≤◌, false, length, OnOk, IfOk, IsTrue, ◌↔◌, List, Some};
ghost use Rattle.m5_terms.specs.Worlds.{IsSiteWorld};
ghost use Rattle.m5_terms.specs.Machine.{asks};
ghost use Rattle.m5_meaning.specs.Site.{Program as ProgramOf, Item as ItemOf, Site as SiteOf};
ghost use Rattle.m5_script.specs.Scenario.{Scenario};
ghost use Rattle.m5_script.specs.Trace.{line_of};
ghost use Rattle.m5_network.specs.Board.{answer_of};
ghost use Rattle.m5_network.specs.Claim.{stop_count};
ghost use Rattle.m5_network.specs.Entries.{Deed};
ghost use Rattle.m5_network.specs.Run.{Network, IsSite};
ghost use Rattle.m5_source_site.specs.ClosedSite.{IsClosedNext, IsClosedSite};
ghost use Rattle.m5_source_site.specs.Waiting.{resumed};
ghost use Rattle.m5_board.specs.Boards.{board_of, IsSession};
ghost use Rattle.m5_sites.specs.ClosedSites.{IsClosedBoard};
ghost use Rattle.m5_sites.specs.Sites.{site_at, with_site_at};
ghost use Rattle.m5_replay.specs.Lines.{site_named, cause_named, place_at};
ghost use Rattle.m5_replay.specs.Settling.{Settles};
ghost use Rattle.m5_replay.specs.code.Looking.{HasLimits, SettlesTo, IsClosedEnd};
ghost use Rattle.m5_replay.specs.code.Making.{IsAnswerMade, IsMade, IsClosedMade};
ghost use Rattle.m5_replay.specs.code.Running.{StandsAt, StandsBut, IsReady, IsChecked};

use crate::limits::Limits;
use crate::running::Running;
use crate::settle::{Settled, Settling, settle};
use m5_board::board::{Answered, Board};
use m5_script::items::SiteName;
use m5_script::put_line;
use m5_sites::resume::{is_nothing, keep, resume};
use m5_sites::sites::{put_site, take_site};
use m5_source_site::item::{LinkItem, SiteAsk};
use m5_source_site::measured::MeasuredProgram;
use m5_source_site::resume::Waiting;
use m5_source_site::site::Site;
use m5_terms::ask::{Act, Cause, Entry};
use std::alloc::{AllocError, Global};

/// Whether the line fits, or its settling is beyond the budget.
#[derive(Clone, Copy, Debug, PartialEq, Eq)]
pub enum Checked {
    Fits,
    Differs,
    Beyond,
}

/// What a place makes: a deed, with the site after it unless it has stopped, that site's weight and what the history
/// shows; or nothing.
#[derive(Drop)]
pub enum Made {
    Deed(Option<Site>, u64, Act),
    Nothing,
}

/// The deed of a site that asks.
fn answer(
    alloc: Global,
    program: &MeasuredProgram<'_>,
    board: &mut Board<LinkItem>,
    name: SiteName,
    query: SiteAsk,
    waiting: Waiting,
) -> Result<Made, AllocError>
    requires session { IsSession name.session board.old.desks }
    requires world { IsSiteWorld name.world }
    requires closed { IsClosedNext (asks query (resumed program.now name.world waiting.site waiting.wait)) }
    ensures made { let x = answer_of (board_of board.old) name.session name.world query in IfOk result (IsAnswerMade query (resumed program.now name.world waiting.site waiting.wait) x board.new) }
    ensures closed { IsClosedBoard (board_of board.old) → IfOk result IsClosedMade }
    ensures closed_board { IsClosedBoard (board_of board.old) → IfOk result (λ m. IsClosedBoard (board_of board.new)) }
    ensures count { length board.new.desks ≡ length board.old.desks }
{
    let Answered { reply, act } = board.answer(alloc, name.session, name.world, query)?;
    if is_nothing(&reply) {
        return Ok(Made::Nothing);
    }
    match resume(alloc, program, name.world, waiting, reply)? {
        Some(site) => {
            let weight = site.weight();
            Ok(Made::Deed(keep(site), weight, act))
        }
        None => Ok(Made::Nothing),
    }
}

/// What the place makes where its settling has ended so. A stop leaves the site as it was, at this weight.
fn make(
    alloc: Global,
    program: &MeasuredProgram<'_>,
    board: &mut Board<LinkItem>,
    name: SiteName,
    cause: Option<Cause>,
    start: u64,
    settled: Settled,
) -> Result<Made, AllocError>
    requires session { IsSession name.session board.old.desks }
    requires world { IsSiteWorld name.world }
    requires closed { IsClosedEnd program.now name.world settled }
    ensures made { (S : Scenario) (N : Network) (before weight : ℕ) → IsSite S name.session name.world → board_of board.old ≡ N.board → (N.site name.session name.world).stopped ≡ false → start ≡ (N.site name.session name.world).weight → SettlesTo program.now S name.world cause before (N.site name.session name.world) weight settled → IfOk result (IsMade program.now S N (record { session = name.session; world = name.world; cause = cause }) board.new) }
    ensures closed { IsClosedBoard (board_of board.old) → IfOk result IsClosedMade }
    ensures closed_board { IsClosedBoard (board_of board.old) → IfOk result (λ m. IsClosedBoard (board_of board.new)) }
    ensures count { length board.new.desks ≡ length board.old.desks }
{
    match settled {
        Settled::Stops(cause) => Ok(Made::Deed(None, start, Act::Stop(cause))),
        Settled::Asks(query, waiting) => {
            if cause.is_some() {
                return Ok(Made::Nothing);
            }
            answer(alloc, program, board, name, query, waiting)
        }
        Settled::Wrong => Ok(Made::Nothing),
    }
}

/// Whether these bytes are the entry's line.
fn is_line_of(alloc: Global, line: &[u8], entry: &Entry) -> Result<bool, AllocError>
    ensures { IfOk result (λ b. IsTrue b ↔ (line.now ≡ line_of entry.now)) }
{
    let mut printed = Vec::new(alloc);
    put_line(alloc, &mut printed, entry)?;
    Ok(line == printed.as_slice())
}

/// How many stops the act is.
fn stops_in(act: &Act) -> u32
    ensures { result ≡ stop_count act.now }
{
    if matches!(act, Act::Stop(_)) { 1 } else { 0 }
}

/// What came before, the settling, and then the ask or take with its answer.
fn weight_after(before: u64, start: u64, settled: u64, after: u64) -> Result<u64, AllocError>
    ensures { IfOk result (λ n. n ≡ before + (settled - start) + (after - settled)) }
{
    let ran = before
        .checked_add(settled.saturating_sub(start))
        .ok_or(AllocError)?;
    ran.checked_add(after.saturating_sub(settled))
        .ok_or(AllocError)
}

/// Puts the site back, and counts what its line weighs and whether it is a stop.
fn advance(
    running: &mut Running,
    name: SiteName,
    left: Option<Site>,
    weight: u64,
    act: &Act,
) -> Result<(), AllocError>
    requires session { (1 ≤ name.session) × (name.session ≤ length running.old.sites.items) }
    requires world { IsSiteWorld name.world }
    ensures put { OnOk result (site_at running.new.sites.items ≡ with_site_at name.session name.world left (site_at running.old.sites.items)) }
    ensures count { length running.new.sites.items ≡ length running.old.sites.items }
    ensures board { running.new.board ≡ running.old.board }
    ensures weight { OnOk result (running.new.weight ≡ weight) }
    ensures stops { OnOk result (running.new.stops ≡ running.old.stops + stop_count act.now) }
{
    put_site(&mut running.sites, name, left);
    running.weight = weight;
    running.stops = running.stops.checked_add(stops_in(act)).ok_or(AllocError)?;
    Ok(())
}

/// Compares the deed with the line, and goes on with it where it is the line's.
fn compare(
    alloc: Global,
    running: &mut Running,
    name: SiteName,
    line: &[u8],
    made: Made,
    gained: (u64, u64),
) -> Result<Checked, AllocError>
    requires session { (1 ≤ name.session) × (name.session ≤ length running.old.sites.items) }
    requires world { IsSiteWorld name.world }
    ensures checked { (P : ProgramOf) (S : Scenario) (N : Network) (before : ℕ) (ds : List (Deed ItemOf)) (settled : SiteOf) → StandsBut S running.old N before ds name → IsMade P S N (place_at line.now name) running.old.board made → Settles P S name.world (cause_named line.now) before (N.site name.session name.world) settled → gained.0 ≡ (N.site name.session name.world).weight → gained.1 ≡ settled.weight → site_named line.now ≡ Some name → IfOk result (IsChecked P S N before ds line.now (place_at line.now name) running.new) }
    ensures ready { (n : ℕ) → IsReady n running.old → IsClosedMade made → IfOk result (λ k. IsReady n running.new) }
{
    let Made::Deed(left, after, act) = made else {
        return Ok(Checked::Differs);
    };
    let SiteName { session, world } = name;
    let entry = Entry {
        session,
        world,
        act,
    };
    if !is_line_of(alloc, line, &entry)? {
        return Ok(Checked::Differs);
    }
    let weight = weight_after(running.weight, gained.0, gained.1, after)?;
    advance(running, name, left, weight, &entry.act)?;
    Ok(Checked::Fits)
}

/// Checks the line of a site that is there and not stopped.
fn check_site(
    alloc: Global,
    program: &MeasuredProgram<'_>,
    limits: Limits,
    running: &mut Running,
    name: SiteName,
    cause: Option<Cause>,
    line: &[u8],
    site: Site,
) -> Result<Checked, AllocError>
    requires session { (1 ≤ name.session) × (name.session ≤ length running.old.sites.items) }
    requires world { IsSiteWorld name.world }
    requires ready { IsReady limits.sessions running.old }
    requires closed { IsClosedSite site }
    ensures checked { (S : Scenario) (N : Network) (before : ℕ) (ds : List (Deed ItemOf)) → HasLimits S limits → IsSite S name.session name.world → StandsBut S running.old N before ds name → board_of running.old.board ≡ N.board → (N.site name.session name.world).stopped ≡ false → site ≡ N.site name.session name.world → site_named line.now ≡ Some name → cause ≡ cause_named line.now → IfOk result (IsChecked program.now S N before ds line.now (place_at line.now name) running.new) }
    ensures ready { IfOk result (λ k. IsReady limits.sessions running.new) }
{
    let start = site.weight();
    match settle(
        alloc,
        program,
        limits,
        name.world,
        cause,
        running.weight,
        site,
    )? {
        Settling::Beyond => Ok(Checked::Beyond),
        Settling::Ends(weight, settled) => {
            let made = make(
                alloc,
                program,
                &mut running.board,
                name,
                cause,
                start,
                settled,
            )?;
            compare(alloc, running, name, line, made, (start, weight))
        }
    }
}

/// Whether the session is one of the run's.
fn is_there(running: &Running, session: u32) -> bool
    ensures { IsTrue result ↔ ((1 ≤ session) × (session ≤ length running.now.sites.items)) }
{
    1 <= session && session as usize <= running.sites.len()
}

/// Checks a line that names this site and cause.
pub fn check_place(
    alloc: Global,
    program: &MeasuredProgram<'_>,
    limits: Limits,
    running: &mut Running,
    name: SiteName,
    cause: Option<Cause>,
    line: &[u8],
) -> Result<Checked, AllocError>
    requires ready { IsReady limits.sessions running.old }
    requires world { IsSiteWorld name.world }
    ensures checked { (S : Scenario) (N : Network) (before : ℕ) (ds : List (Deed ItemOf)) → HasLimits S limits → StandsAt S running.old N before ds → site_named line.now ≡ Some name → cause ≡ cause_named line.now → IfOk result (IsChecked program.now S N before ds line.now (place_at line.now name) running.new) }
    ensures ready { IfOk result (λ k. IsReady limits.sessions running.new) }
{
    if !is_there(running, name.session) {
        return Ok(Checked::Differs);
    }
    match take_site(&mut running.sites, name) {
        Some(site) => check_site(alloc, program, limits, running, name, cause, line, site),
        None => Ok(Checked::Differs),
    }
}
