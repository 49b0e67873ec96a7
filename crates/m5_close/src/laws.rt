//! The laws of closing, each on a function that does nothing.

ghost use Rattle.m5_terms.specs.Machine.{Machine};
ghost use Rattle.m5_terms.specs.Matching.{Reading, Moments, Meeting};
ghost use Rattle.m5_terms.specs.declared.types.World.{World};
ghost use Rattle.m5_cps.specs.Blocks.{Blocks};
ghost use Rattle.m5_cps.specs.Machine.{blocks_machine, blocks_moments};
ghost use Rattle.m5_close.specs.Closing.{ClosedGoOn, ClosedPlaysFully, ClosedAreLimited, ClosedIsProgram};

/// Closed blocks go on as those that they are made of: at each world with the same steps, asks, entries and units.
pub fn closed_go_on_holds()
    ensures { ClosedGoOn }
{}

/// What a site of blocks is read back to, and which moments of it the site's meet.
pub trait Origin {
    ghost blocks: { Blocks };

    ghost world: { World };

    ghost input: { Machine };

    ghost reading: { Reading input (blocks_machine blocks world) };

    ghost moments: { Moments input };

    ghost meeting: { Meeting input (blocks_machine blocks world) moments (blocks_moments blocks world) };
}

/// What always plays fully with blocks, as a program does with those of its conversion, does so with the closed ones.
pub fn closed_plays_fully_holds<O: Origin>()
    ensures { ClosedPlaysFully O.blocks O.world O.input O.reading O.moments O.meeting }
{}

/// A closed block is within the limits where the one that it is made of is: it fills as many slots, and its endings nest as deep.
pub fn closed_are_limited_holds()
    ensures { ClosedAreLimited }
{}

/// A closed program is a program of blocks under labels: each block is typed, over an environment of the types that it says, and within the limits.
pub fn closed_is_program_holds()
    ensures { ClosedIsProgram }
{}
