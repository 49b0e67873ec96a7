//! The names of all sites, in the order of their numbers.

ghost use Rattle.std.specs.Prelude.{◌≡◌, ◌++◌, map, IfOk, OnOk};
ghost use Rattle.m5_terms.specs.Worlds.{site_worlds};
ghost use Rattle.m5_network.specs.Plain.{sites_of};

use m5_script::items::SiteName;
use m5_terms::worlds::worlds_of_sites;
use std::alloc::{AllocError, Global};

/// Adds the sites of a session, in the order of their numbers.
fn add_session(names: &mut Vec<SiteName>, session: u32) -> Result<(), AllocError>
    ensures { OnOk result (names.new.items ≡ names.old.items ++ map (λ w. record { session = session; world = w }) site_worlds) }
{
    for world in worlds_of_sites() {
        names.push(SiteName { session, world })?;
    }
    Ok(())
}

/// The sites of so many sessions, by number.
pub fn all_sites(alloc: Global, sessions: u32) -> Result<Vec<SiteName>, AllocError>
    ensures { IfOk result (λ v. v.items ≡ sites_of sessions) }
{
    let mut names = Vec::new(alloc);
    for before in 0..sessions {
        add_session(&mut names, before + 1)?;
    }
    Ok(names)
}
