//! How a label is entered.

ghost use Rattle.std.specs.Prelude.{◌≡◌};
ghost use Rattle.m5_dictionary.specs.Dictionaries.{stands_at};

use m5_terms::types::{World, is_same_world};
use std::marker::Model;

/// A label: the world at which it stands, where `Any` is each of them, the type id of its argument,
/// and those of its environment.
#[derive(Drop)]
pub struct Label {
    world: World,
    argument: u32,
    environment: Vec<u32>,
}

impl Model for Label {
    ghost use Rattle.m5_dictionary.specs.Dictionaries.{Entrance};

    ghost Value = { Entrance };

    ghost view = { λ l. record { world = l.world; argument = l.argument; environment = l.environment.items } };
}

impl Label {
    pub fn of(world: World, argument: u32, environment: Vec<u32>) -> Label
        ensures { result ≡ record { world = world; argument = argument; environment = environment.items } }
    {
        Label {
            world,
            argument,
            environment,
        }
    }

    /// The world at which it stands, or `Any`.
    pub fn world(&self) -> World
        ensures { result ≡ self.now.world }
    {
        self.world
    }

    /// The type id of the argument.
    pub fn argument(&self) -> u32
        ensures { result ≡ self.now.argument }
    {
        self.argument
    }

    /// The type ids of the environment, in order.
    pub fn environment(&self) -> &[u32]
        ensures { result.now ≡ self.now.environment }
    {
        self.environment.as_slice()
    }

    /// Whether the label is one of a world's code.
    pub fn stands_at(&self, world: World) -> bool
        ensures { result ≡ stands_at self.now.world world }
    {
        is_same_world(self.world, World::Any) || is_same_world(self.world, world)
    }
}
