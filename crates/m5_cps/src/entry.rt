//! How blocks are entered, with their types by number.

ghost use Rattle.std.specs.Prelude.{◌≡◌};
ghost use Rattle.m5_cps.specs.Entries.{world_of};
ghost use Rattle.m5_cps.specs.Steps.{mode_of};

use m5_terms::types::World;

/// Where something is of its type: at one world, or at each.
#[derive(Clone, Copy)]
pub enum Mode {
    Only(World),
    Everywhere,
}

impl Mode {
    /// Where a block of this mode stands.
    pub fn world(self) -> World
        ensures { result ≡ world_of (mode_of self) }
    {
        match self {
            Mode::Only(world) => world,
            Mode::Everywhere => World::Any,
        }
    }
}

/// What a block takes: a value of a type, or a continuation that takes one.
#[derive(Clone, Copy)]
pub enum Argument {
    Value(usize),
    Continuation(usize),
}

/// A block is entered with a value, or called with a value and a continuation; then it has the
/// types of the value and of what the continuation takes.
#[derive(Clone, Copy)]
pub enum Entry {
    ByValue(Mode, Argument),
    ByCall(Mode, usize, usize),
}
