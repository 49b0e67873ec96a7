//! The worlds that have sites.

ghost use Rattle.std.specs.Prelude.{◌≡◌};
ghost use Rattle.m5_terms.specs.Worlds.{site_worlds};

use crate::types::World;

/// The worlds at which a session has a site, in the order of the sites' numbers.
pub fn worlds_of_sites() -> [World; 3]
    ensures { result ≡ site_worlds }
{
    [World::Home, World::Server, World::Panel]
}
