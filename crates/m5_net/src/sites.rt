//! The sites of all sessions.

ghost use Rattle.std.specs.Prelude.{◌≡◌, ◌≤◌, length, None};
ghost use Rattle.m5_terms.specs.PerWorld.{at, with_at};
ghost use Rattle.m5_terms.specs.Worlds.{IsSiteWorld};
ghost use Rattle.m5_net.specs.Sites.{site_at, with_site_at};

use m5_script::items::SiteName;
use m5_site::site::Site;
use m5_terms::per_world::PerWorld;
use m5_terms::types::World;

/// The sites of one session. One that has stopped is gone.
pub type SessionSites = PerWorld<Option<Site>>;

/// Takes the site of a world out of a session's.
fn take_at(session: &mut SessionSites, world: World) -> Option<Site>
    requires { IsSiteWorld world }
    ensures taken { result ≡ at session.old world }
    ensures left { session.new ≡ with_at world None session.old }
{
    session.get_mut(world).take()
}

/// Takes a site out.
pub fn take_site(sites: &mut Vec<SessionSites>, name: SiteName) -> Option<Site>
    requires session { (1 ≤ name.session) × (name.session ≤ length sites.old.items) }
    requires world { IsSiteWorld name.world }
    ensures taken { result ≡ site_at sites.old.items name.session name.world }
    ensures left { site_at sites.new.items ≡ with_site_at name.session name.world None (site_at sites.old.items) }
    ensures count { length sites.new.items ≡ length sites.old.items }
{
    let session = &mut sites[name.session as usize - 1];
    take_at(session, name.world)
}

/// Puts a site in its place, or none where it has stopped.
pub fn put_site(sites: &mut Vec<SessionSites>, name: SiteName, site: Option<Site>)
    requires session { (1 ≤ name.session) × (name.session ≤ length sites.old.items) }
    requires world { IsSiteWorld name.world }
    ensures put { site_at sites.new.items ≡ with_site_at name.session name.world site (site_at sites.old.items) }
    ensures count { length sites.new.items ≡ length sites.old.items }
{
    let session = &mut sites[name.session as usize - 1];
    session.set(name.world, site);
}
