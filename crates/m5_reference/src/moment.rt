//! The next moment of a site at which a run does something with it.

ghost use Rattle.std.specs.Prelude.{IfOk};
ghost use Rattle.m5_script.specs.Scenario.{Scenario};
ghost use Rattle.m5_source_site.specs.ClosedSite.{IsClosedSite};
ghost use Rattle.m5_reference.specs.Moments.{HasLimits, IsStepOrMomentAt, IsMoment, IsClosedStepOrMoment, IsClosedMoment, IsCountedStep};

use crate::limits::Limits;
use m5_source_site::item::SiteAsk;
use m5_source_site::measured::MeasuredProgram;
use m5_source_site::next::{Next, next_step};
use m5_source_site::resume::{Wait, Waiting};
use m5_source_site::site::Site;
use m5_terms::ask::{AskOf, Cause};
use m5_terms::types::World;
use std::alloc::{AllocError, Global};

/// A stop, an ask with the site that waits for its answer, or that the meaning went wrong.
#[derive(Drop)]
pub enum Moment {
    Stops(Cause),
    Asks(SiteAsk, Waiting),
    Wrong,
}

/// A local step, or the moment itself.
#[derive(Drop)]
enum StepOrMoment {
    Step(Site),
    Moment(Moment),
}

/// A local step, or what the run does with the site as it is.
fn step_or_moment(
    alloc: Global,
    program: &MeasuredProgram<'_>,
    limits: Limits,
    here: World,
    site: Site,
) -> Result<StepOrMoment, AllocError>
    requires { IsClosedSite site }
    ensures moment { (S : Scenario) → HasLimits S limits → IfOk result (IsStepOrMomentAt program.now S here site) }
    ensures closed { IfOk result (IsClosedStepOrMoment program.now here) }
    ensures counted { IfOk result (IsCountedStep site limits) }
{
    program.closed_holds();
    if site.is_idle() {
        let wait = Wait::Take;
        return Ok(StepOrMoment::Moment(Moment::Asks(AskOf::Take, Waiting { site, wait })));
    }
    if limits.steps <= site.steps() {
        return Ok(StepOrMoment::Moment(Moment::Stops(Cause::Spent)));
    }
    let weight = site.weight();
    if limits.region <= weight {
        return Ok(StepOrMoment::Moment(Moment::Stops(Cause::Region)));
    }
    match next_step(alloc, program, here, site)? {
        Next::Goes(next) => {
            if limits.region <= next.weight() {
                Ok(StepOrMoment::Moment(Moment::Stops(Cause::Region)))
            } else {
                Ok(StepOrMoment::Step(next))
            }
        }
        Next::Asks(query, waiting) => {
            if limits.region <= weight + program.step_weight(0) {
                Ok(StepOrMoment::Moment(Moment::Stops(Cause::Region)))
            } else {
                Ok(StepOrMoment::Moment(Moment::Asks(query, waiting)))
            }
        }
        Next::Wrong => Ok(StepOrMoment::Moment(Moment::Wrong)),
    }
}

/// The site at its next moment: at the first at which a stop is licensed, the steps being looked
/// at before the region, or at its next ask, or where the meaning goes wrong.
pub fn next_moment(
    alloc: Global,
    program: &MeasuredProgram<'_>,
    limits: Limits,
    here: World,
    site: Site,
) -> Result<Moment, AllocError>
    requires { IsClosedSite site }
    ensures moment { (S : Scenario) → HasLimits S limits → IfOk result (IsMoment program.now S here site) }
    ensures closed { IfOk result (IsClosedMoment program.now here) }
{
    let mut site = site;
    'steps: loop {
        match step_or_moment(alloc, program, limits, here, site)? {
            StepOrMoment::Step(next) => site = next,
            StepOrMoment::Moment(moment) => return Ok(moment),
        }
    }
}
