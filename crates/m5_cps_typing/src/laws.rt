//! The laws of typed blocks, each on a function that does nothing.

ghost use Rattle.m5_cps_typing.specs.Laws.{TypedBlocksGoOn, OpeningIsTyped, TypesAreFound, RowsFit, UsedSlotsAreTyped, AsksAtItsWorld, SendsElsewhere, SendsFromOneWorld};

/// A typed site of blocks goes on typed, asks typed asks and is never wrong.
pub fn typed_blocks_go_on_holds()
    ensures { TypedBlocksGoOn }
{}

/// Each site begins typed.
pub fn opening_is_typed_holds()
    ensures { OpeningIsTyped }
{}

/// The type of a typed node is found by going through the node.
pub fn types_are_found_holds()
    ensures { TypesAreFound }
{}

/// The types that are read off the code are those of the blocks in it.
pub fn rows_fit_holds()
    ensures { RowsFit }
{}

/// A slot that a typed block uses has a type.
pub fn used_slots_are_typed_holds()
    ensures { UsedSlotsAreTyped }
{}

/// A typed block asks by a primitive of its own world.
pub fn asks_at_its_world_holds()
    ensures { AsksAtItsWorld }
{}

/// A typed block does not send to its own world.
pub fn sends_elsewhere_holds()
    ensures { SendsElsewhere }
{}

/// A typed block that stands at each world does not send.
pub fn sends_from_one_world_holds()
    ensures { SendsFromOneWorld }
{}
