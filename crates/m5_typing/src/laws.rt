//! The laws of typing, each on a function that does nothing.

ghost use Rattle.m5_typing.specs.Laws.{Weakening, Substitution, Mobility, TypedEverywhere, OneType, TypedIsClosed, DeclaredIsTyped};

/// Where more is known, a term keeps its types.
pub fn weakening_holds()
    ensures { Weakening }
{}

/// A closed value form may stand for a variable.
pub fn substitution_holds()
    ensures { Substitution }
{}

/// A value of a mobile type may go to every world.
pub fn mobility_holds()
    ensures { Mobility }
{}

/// What needs no world may stand at every world.
pub fn typed_everywhere_holds()
    ensures { TypedEverywhere }
{}

/// A term has one type.
pub fn one_type_holds()
    ensures { OneType }
{}

/// A term that is typed without variables is closed.
pub fn typed_is_closed_holds()
    ensures { TypedIsClosed }
{}

/// Each declared function of a program is typed where all of them are known.
pub fn declared_is_typed_holds()
    ensures { DeclaredIsTyped }
{}
