//! The laws of typed sites, each on a function that does nothing.

ghost use Rattle.m5_site_sound.specs.Laws.{TypedSitesGoOn, TypedSitesAreSound};

/// A typed site's next step or ask is typed.
pub fn typed_sites_go_on_holds()
    ensures { TypedSitesGoOn }
{}

/// No lawful answers lead a typed site to where the rules allow nothing.
pub fn typed_sites_are_sound_holds()
    ensures { TypedSitesAreSound }
{}
