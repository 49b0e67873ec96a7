//! The sites that a run opens with.

ghost use Rattle.std.specs.Prelude.{◌≡◌, ◌≤◌, length, IfOk};
ghost use Rattle.m5_net.specs.Opening.{IsOpenedLeft, IsOpenedRow, AreRows};

use crate::sites::SessionSites;
use m5_site::object::Object;
use m5_site::site::Site;
use m5_site::state::Limits;
use m5_terms::per_world::PerWorld;
use m5_terms::types::World;
use std::alloc::{AllocError, Global};

/// The site of a session at a world as it opens; there is none at any.
fn open_site(
    alloc: Global,
    object: &Object,
    session: u32,
    world: World,
    limits: Limits,
) -> Result<Option<Site>, AllocError>
    requires { limits.region ≤ 262144 }
    ensures { IfOk result (IsOpenedLeft object.now limits session world) }
{
    match world {
        World::Any => Ok(None),
        _ => Ok(Some(Site::make(alloc, object, session, world, limits)?)),
    }
}

fn open_session(
    alloc: Global,
    object: &Object,
    session: u32,
    limits: Limits,
) -> Result<SessionSites, AllocError>
    requires { limits.region ≤ 262144 }
    ensures { IfOk result (IsOpenedRow object.now limits session) }
{
    PerWorld::of_each(|world: World| open_site(alloc, object, session, world, limits))
}

/// The sites of so many sessions: each home begins with a thread that enters the label `start`, and
/// each other site with none.
pub fn open_sites(
    alloc: Global,
    object: &Object,
    sessions: u32,
    limits: Limits,
) -> Result<Vec<SessionSites>, AllocError>
    requires { limits.region ≤ 262144 }
    ensures opened { IfOk result (λ v. AreRows object.now limits 1 v.items) }
    ensures count { IfOk result (λ v. length v.items ≡ sessions) }
{
    let mut sites = Vec::new(alloc);
    for before in 0..sessions {
        sites.push(open_session(alloc, object, before + 1, limits)?)?;
    }
    Ok(sites)
}
