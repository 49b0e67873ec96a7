//! What a site does next.

ghost use Rattle.std.specs.Prelude.{◌≡◌, IfOk, All};
ghost use Rattle.m5_meaning.specs.Step.{focused, site_next};
ghost use Rattle.m5_source_site.specs.ClosedSite.{HasRoom, IsClosedThread, IsClosedSite};
ghost use Rattle.m5_source_site.specs.Waiting.{with_front, Stands, KeepsClosed};

use crate::evaluate::evaluate;
use crate::item::SiteAsk;
use crate::measured::MeasuredProgram;
use crate::resume::{Wait, Waiting};
use crate::returning::return_value;
use crate::site::Site;
use crate::thread::SiteThread;
use m5_terms::ask::AskOf;
use m5_terms::thread::Focus;
use m5_terms::types::World;
use std::alloc::{AllocError, Global};

/// A local step, an ask with the site that waits for its answer, or nothing that the rules allow.
#[derive(Drop)]
pub enum Next {
    Goes(Site),
    Asks(SiteAsk, Waiting),
    Wrong,
}

/// The thread that runs goes on.
fn run(
    alloc: Global,
    program: &MeasuredProgram<'_>,
    here: World,
    site: Site,
    thread: SiteThread,
) -> Result<Next, AllocError>
    requires room { HasRoom site }
    requires closed { IsClosedThread thread }
    ensures { IfOk result (λ a. Stands program.now here a (focused program.now here (with_front thread site) site.threads thread.frames thread.focus)) }
{
    let (frames, focus) = thread.into_parts();
    match focus {
        Focus::Eval(at, node) => evaluate(alloc, program, here, site, frames, (at, node)),
        Focus::Returned(at, value) => return_value(alloc, program, here, site, frames, (at, value)),
    }
}

fn next_of(
    alloc: Global,
    program: &MeasuredProgram<'_>,
    here: World,
    mut site: Site,
) -> Result<Next, AllocError>
    requires room { HasRoom site }
    requires closed { All IsClosedThread site.threads }
    ensures { IfOk result (λ a. Stands program.now here a (site_next program.now here site)) }
{
    match site.take_front() {
        Some(thread) => run(alloc, program, here, site, thread),
        None => {
            let wait = Wait::Take;
            Ok(Next::Asks(AskOf::Take, Waiting { site, wait }))
        }
    }
}

/// What the site at the world `here` does next: a local step of its front thread, the next ask,
/// or wrong. A site without threads asks for something new.
pub fn next_step(
    alloc: Global,
    program: &MeasuredProgram<'_>,
    here: World,
    site: Site,
) -> Result<Next, AllocError>
    requires room { HasRoom site }
    requires closed { IsClosedSite site }
    ensures next { IfOk result (λ a. Stands program.now here a (site_next program.now here site)) }
    ensures closed { IfOk result (KeepsClosed program.now here) }
{
    program.closed_holds();
    next_of(alloc, program, here, site)
}
