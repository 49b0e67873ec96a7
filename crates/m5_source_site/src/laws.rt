//! Laws of closed sites, each on a function that does nothing.

ghost use Rattle.m5_source_site.specs.ClosedSite.{StaysClosed, TypedProgramIsClosed};

/// A closed site of a closed program stays closed, and sends nothing that is not.
pub fn stays_closed_holds()
    ensures { StaysClosed }
{}

/// A typed program has no free variables.
pub fn typed_program_is_closed_holds()
    ensures { TypedProgramIsClosed }
{}
