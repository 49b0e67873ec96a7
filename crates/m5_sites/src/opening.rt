//! The sites that a run opens with.

ghost use Rattle.std.specs.Prelude.{◌≡◌, replicate, Some, IfOk};
ghost use Rattle.m5_network.specs.Opening.{opening_site, opening_threads};
ghost use Rattle.m5_sites.specs.Opening.{sites_opened};

use crate::sites::SessionSites;
use m5_source_site::measured::MeasuredProgram;
use m5_source_site::site::Site;
use m5_source_site::thread::SiteThread;
use m5_terms::per_world::PerWorld;
use m5_terms::queue::Queue;
use m5_terms::thread::Focus;
use m5_terms::types::World;
use std::alloc::{AllocError, Global};

/// The threads with which the site of a world opens: at home one evaluates the program's main term.
fn open_threads(
    alloc: Global,
    program: &MeasuredProgram<'_>,
    world: World,
) -> Result<Queue<SiteThread>, AllocError>
    ensures { IfOk result (λ ts. ts ≡ opening_threads program.now world) }
{
    let mut threads = Queue::make(alloc);
    match world {
        World::Home => {
            let focus = Focus::Eval(World::Home, program.main().copy(alloc)?);
            threads.push_back(SiteThread::new(Queue::make(alloc), focus))?;
        }
        _ => {}
    }
    Ok(threads)
}

/// The site of a world as it opens.
fn open_site(
    alloc: Global,
    program: &MeasuredProgram<'_>,
    world: World,
) -> Result<Option<Site>, AllocError>
    ensures { IfOk result (λ o. o ≡ Some (opening_site (opening_threads program.now world))) }
{
    Ok(Some(Site::opening(alloc, open_threads(alloc, program, world)?)))
}

fn open_session(alloc: Global, program: &MeasuredProgram<'_>) -> Result<SessionSites, AllocError>
    ensures { IfOk result (λ r. r ≡ sites_opened program.now) }
{
    PerWorld::of_each(|world: World| open_site(alloc, program, world))
}

/// The sites of so many sessions: each home begins with a thread that evaluates the main term, and
/// each other site with none.
pub fn open_sites(
    alloc: Global,
    program: &MeasuredProgram<'_>,
    sessions: u32,
) -> Result<Vec<SessionSites>, AllocError>
    ensures { IfOk result (λ v. v.items ≡ replicate sessions (sites_opened program.now)) }
{
    let mut sites = Vec::new(alloc);
    for _number in 0..sessions {
        sites.push(open_session(alloc, program)?)?;
    }
    Ok(sites)
}
