//! The laws of emission, each on a function that does nothing.

ghost use Rattle.m5_emit.specs.Laws.{StandsOn, StraightsFollow, ClosuresFollow, TestsFollow, EndingsFollow, BodiesFollow, BlocksFollow};

/// What stands for a value in a list of objects does so when objects are added.
pub fn stands_on_holds()
    ensures { StandsOn }
{}

/// The instructions of a straight form follow it: they fill a slot with what stands for its value, change cells and threads alike,
/// and make an object of as many units just where the form does.
pub fn straights_follow_holds()
    ensures { StraightsFollow }
{}

/// The instructions of a closure make an array of its label and of what it takes, with the units of the closure.
pub fn closures_follow_holds()
    ensures { ClosuresFollow }
{}

/// The instructions of a test go the way that it goes, with the parts of its value in slots.
pub fn tests_follow_holds()
    ensures { TestsFollow }
{}

/// The instructions of an ending end as it does: they enter, call, ask, send or end the thread, with what stands for its operands.
pub fn endings_follow_holds()
    ensures { EndingsFollow }
{}

/// A block's body follows its code, where that may run: it makes objects of as many units where the code does, and ends alike.
pub fn bodies_follow_holds()
    ensures { BodiesFollow }
{}

/// The body of the block that a thread enters or calls follows it: it reads what the closure has taken, and the parts of a call.
pub fn blocks_follow_holds()
    ensures { BlocksFollow }
{}
