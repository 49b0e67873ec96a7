//! The laws of typed blocks under labels, each on a function that does nothing.

ghost use Rattle.m5_flat_typing.specs.Laws.{TypedFlatGoesOn, OpeningIsTyped, EnteredHasItsTypes, CalledHasItsTypes, AsksAtItsWorld, SendsElsewhere, SendsFromOneWorld};

/// A typed site goes on typed, asks typed asks and is never wrong.
pub fn typed_flat_goes_on_holds()
    ensures { TypedFlatGoesOn }
{}

/// Each site begins typed.
pub fn opening_is_typed_holds()
    ensures { OpeningIsTyped }
{}

/// What a typed thread brings to a label that it enters has the label's types.
pub fn entered_has_its_types_holds()
    ensures { EnteredHasItsTypes }
{}

/// What a typed thread brings to a label that it calls has the label's types.
pub fn called_has_its_types_holds()
    ensures { CalledHasItsTypes }
{}

/// A typed block asks by a primitive of its own world.
pub fn asks_at_its_world_holds()
    ensures { AsksAtItsWorld }
{}

/// A typed block does not send to its own world.
pub fn sends_elsewhere_holds()
    ensures { SendsElsewhere }
{}

/// A typed block that stands at each world does not send.
pub fn sends_from_one_world_holds()
    ensures { SendsFromOneWorld }
{}
