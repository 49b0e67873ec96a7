//! The laws of slices, each on a function that does nothing.

ghost use Rattle.m5_slice.specs.Going.{SlicedGoOn};
ghost use Rattle.m5_slice.specs.Apart.{SlicedAreApart};

/// A slice goes on as the program that it is of: at its world with the same steps, asks, entries and units.
pub fn sliced_go_on_holds()
    ensures { SlicedGoOn }
{}

/// A primitive is asked in the slice of its world alone, and what is sent begins where it goes.
pub fn sliced_are_apart_holds()
    ensures { SlicedAreApart }
{}
