//! The law of hoisting, on a function that does nothing.

ghost use Rattle.m5_hoist.specs.Hoisting.{HoistedGoOn};

/// Hoisted blocks go on as the closed ones: at each world with the same steps, asks, entries and units.
pub fn hoisted_go_on_holds()
    ensures { HoistedGoOn }
{}
