//! Laws of messages, each on a function that does nothing.

ghost use Rattle.m5_message.specs.Laws.{StandsAgain, ArrivesLight, StandsBehind};

/// What is packed stands for the thread that was packed.
pub fn stands_again_holds()
    ensures { StandsAgain }
{}

/// The objects of a packed message take no more units than the thread as trees.
pub fn arrives_light_holds()
    ensures { ArrivesLight }
{}

/// The objects of a message stand for the same trees behind the objects of a region.
pub fn stands_behind_holds()
    ensures { StandsBehind }
{}
