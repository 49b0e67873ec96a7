//! A law of resolved programs, on a function that does nothing.

ghost use Rattle.m5_scope.specs.Binders.{BindersDiffer};

/// The binders of a resolved program have the numbers from 0 on in the order of the text, each a number of its own.
pub fn binders_differ_holds()
    ensures { BindersDiffer }
{}
