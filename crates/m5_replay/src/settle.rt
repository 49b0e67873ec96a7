//! Settling a site: its local steps to its next ask, or to the first moment at which a stop's condition holds.

ghost use Rattle.std.specs.Prelude.{◌≡◌, ◌+◌, ◌-◌, ◌<◌, ◌≤◌, ◌^◌, [], IfOk, IsTrue, MatchOption, Option, Some, false, ◌↔◌};
ghost use Rattle.m5_terms.specs.Machine.{goes};
ghost use Rattle.m5_terms.specs.declared.types.World.{World as WorldOf};
ghost use Rattle.m5_terms.specs.declared.ask.Cause.{Cause as CauseOf};
ghost use Rattle.m5_meaning.specs.Site.{Program as ProgramOf, Site as SiteOf};
ghost use Rattle.m5_meaning.specs.Step.{next_weight, site_next};
ghost use Rattle.m5_script.specs.Scenario.{Scenario};
ghost use Rattle.m5_network.specs.FirstMoment.{MayStop};
ghost use Rattle.m5_network.specs.Run.{Reached};
ghost use Rattle.m5_source_site.specs.ClosedSite.{IsClosedSite};
ghost use Rattle.m5_source_site.specs.Waiting.{Stands, KeepsClosed};
ghost use Rattle.m5_replay.specs.Settling.{most_weight, StopsHere, IsWithin};
ghost use Rattle.m5_replay.specs.code.Looking.{HasLimits, IsLooked, IsClosedLooked, IsCounted, IsSettled, IsClosedSettling};

use crate::depth::{is_shallow_site, stays_shallow};
use crate::limits::Limits;
use m5_sites::resume::check_room;
use m5_source_site::item::SiteAsk;
use m5_source_site::measured::MeasuredProgram;
use m5_source_site::next::{Next, next_step};
use m5_source_site::resume::Waiting;
use m5_source_site::site::Site;
use m5_terms::ask::Cause;
use m5_terms::types::World;
use std::alloc::{AllocError, Global};

/// The most that all local steps, asks and takes may weigh.
const MOST_WEIGHT: u64 = 16_000_000;

/// Where a settling ends: at the moment for a stop, at the next ask with the site that waits for its answer, or where the
/// meaning goes wrong.
#[derive(Drop)]
pub enum Settled {
    Stops(Cause),
    Asks(SiteAsk, Waiting),
    Wrong,
}

/// A local step, or the end.
#[derive(Drop)]
pub enum Looked {
    Goes(Site),
    Ends(Settled),
}

/// The end with the site's weight there, or that a moment on the way is beyond the budget.
#[derive(Drop)]
pub enum Settling {
    Ends(u64, Settled),
    Beyond,
}

/// What the site weighs with what it does next.
fn weight_with(program: &MeasuredProgram<'_>, weight: u64, next: &Next) -> u64
    requires { weight < 2 ^ 62 }
    ensures { (w : WorldOf) (x : SiteOf) → Stands program.now w next.now (site_next program.now w x) → weight ≡ x.weight → result ≡ x.weight + next_weight program.now x (site_next program.now w x) }
{
    match next {
        Next::Goes(site) => weight.max(site.weight()),
        Next::Asks(..) => weight + program.step_weight(0),
        Next::Wrong => weight,
    }
}

/// Whether a stop by this cause has its condition where a site has made so many steps and weighs so much with what it does
/// next.
fn is_reached(limits: Limits, cause: Cause, steps: u64, weight: u64) -> bool
    ensures { (P : ProgramOf) (S : Scenario) (w : WorldOf) (x : SiteOf) → HasLimits S limits → steps ≡ x.steps → weight ≡ x.weight + next_weight P x (site_next P w x) → IsTrue result ↔ Reached P S w cause x }
{
    match cause {
        Cause::Spent => limits.steps <= steps,
        Cause::Region => limits.region <= weight,
        Cause::Table => false,
    }
}

/// The cause, where its condition holds of a site that is idle or not.
fn stop_here(
    limits: Limits,
    cause: Option<Cause>,
    is_idle: bool,
    steps: u64,
    weight: u64,
) -> Option<Cause>
    ensures { (P : ProgramOf) (S : Scenario) (w : WorldOf) (x : SiteOf) → HasLimits S limits → (IsTrue is_idle ↔ (x.threads ≡ [])) → steps ≡ x.steps → weight ≡ x.weight + next_weight P x (site_next P w x) → MatchOption result (StopsHere P S w cause x → ⊥) (λ c. (cause ≡ Some c) × MayStop P S w c x) }
{
    let cause = cause?;
    if is_idle {
        return None;
    }
    if is_reached(limits, cause, steps, weight) {
        Some(cause)
    } else {
        None
    }
}

/// A local step, or the end of the settling.
fn next_or_end(stop: Option<Cause>, next: Next) -> Looked
    ensures looked { (P : ProgramOf) (S : Scenario) (w : WorldOf) (cause : Option CauseOf) (x : SiteOf) → Stands P w next (site_next P w x) → MatchOption stop (StopsHere P S w cause x → ⊥) (λ c. (cause ≡ Some c) × MayStop P S w c x) → IsLooked P S w cause x result }
    ensures closed { (P : ProgramOf) (w : WorldOf) → KeepsClosed P w next → IsClosedLooked P w result }
    ensures counted { (P : ProgramOf) (w : WorldOf) (x : SiteOf) → Stands P w next (site_next P w x) → x.steps < 2 ^ 62 → IsCounted x result }
{
    if let Some(cause) = stop {
        return Looked::Ends(Settled::Stops(cause));
    }
    match next {
        Next::Goes(next) => Looked::Goes(next),
        Next::Asks(query, waiting) => Looked::Ends(Settled::Asks(query, waiting)),
        Next::Wrong => Looked::Ends(Settled::Wrong),
    }
}

/// What a settling does with the site.
fn look(
    alloc: Global,
    program: &MeasuredProgram<'_>,
    limits: Limits,
    here: World,
    cause: Option<Cause>,
    site: Site,
) -> Result<Looked, AllocError>
    requires { IsClosedSite site }
    ensures looked { (S : Scenario) → HasLimits S limits → IfOk result (IsLooked program.now S here cause site) }
    ensures closed { IfOk result (IsClosedLooked program.now here) }
    ensures counted { IfOk result (IsCounted site) }
{
    check_room(&site)?;
    let is_idle = site.is_idle();
    let steps = site.steps();
    let weight = site.weight();
    let next = next_step(alloc, program, here, site)?;
    let with = weight_with(program, weight, &next);
    Ok(next_or_end(stop_here(limits, cause, is_idle, steps, with), next))
}

/// Whether all that was run weighs little enough: what came before, and what the site has gained since the settling began.
fn is_light(before: u64, start: u64, now: u64) -> bool
    ensures { IsTrue result ↔ (before + (now - start) ≤ most_weight) }
{
    before.saturating_add(now.saturating_sub(start)) <= MOST_WEIGHT
}

/// Whether the weight so far and the site's depth are within the budget, where the settling began at this weight.
fn is_within(before: u64, start: u64, site: &Site) -> bool
    ensures within { (x : SiteOf) → start ≡ x.weight → IsTrue result → IsWithin before x site.now }
    ensures beyond { (x : SiteOf) → start ≡ x.weight → result ≡ false → IsWithin before x site.now → ⊥ }
{
    if !is_light(before, start, site.weight()) {
        return false;
    }
    is_shallow_site(site)
}

/// The same after one local step more from a moment within the budget: it looks at what the step made alone.
fn stays_within(before: u64, start: u64, site: &Site) -> bool
    ensures within { (P : ProgramOf) (w : WorldOf) (x y : SiteOf) → start ≡ x.weight → site_next P w y ≡ goes site.now → IsWithin before x y → IsTrue result → IsWithin before x site.now }
    ensures beyond { (P : ProgramOf) (w : WorldOf) (x y : SiteOf) → start ≡ x.weight → site_next P w y ≡ goes site.now → IsWithin before x y → result ≡ false → IsWithin before x site.now → ⊥ }
{
    if !is_light(before, start, site.weight()) {
        return false;
    }
    stays_shallow(site)
}

/// Settles the site, which is at the world `here`, where all that was run before weighs so much.
pub fn settle(
    alloc: Global,
    program: &MeasuredProgram<'_>,
    limits: Limits,
    here: World,
    cause: Option<Cause>,
    before: u64,
    site: Site,
) -> Result<Settling, AllocError>
    requires { IsClosedSite site }
    ensures settled { (S : Scenario) → HasLimits S limits → IfOk result (IsSettled program.now S here cause before site) }
    ensures closed { IfOk result (IsClosedSettling program.now here) }
{
    let start = site.weight();
    if !is_within(before, start, &site) {
        return Ok(Settling::Beyond);
    }
    let mut site = site;
    'steps: loop {
        let weight = site.weight();
        let next = match look(alloc, program, limits, here, cause, site)? {
            Looked::Goes(next) => next,
            Looked::Ends(settled) => return Ok(Settling::Ends(weight, settled)),
        };
        if !stays_within(before, start, &next) {
            return Ok(Settling::Beyond);
        }
        site = next;
    }
}
