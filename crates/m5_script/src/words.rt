//! The words for worlds and sites, added to a buffer.

ghost use Rattle.std.specs.Prelude.{◌≡◌, ◌++◌, OnOk};
ghost use Rattle.m5_script.specs.Trace.{site_words, world_word};

use m5_terms::decimal::put_number;
use m5_terms::types::World;
use std::alloc::{AllocError, Global};

/// The word for a world.
pub fn word_of_world(world: World) -> &'static [u8]
    ensures { result.now ≡ world_word world }
{
    match world {
        World::Home => b"home",
        World::Server => b"server",
        World::Panel => b"panel",
        World::Any => b"any",
    }
}

pub fn put_world(out: &mut Vec<u8>, world: World) -> Result<(), AllocError>
    ensures { OnOk result (out.new.items ≡ out.old.items ++ world_word world) }
{
    out.extend_from_slice(word_of_world(world))
}

/// Adds a session's number and one of its worlds.
pub fn put_site(
    alloc: Global,
    out: &mut Vec<u8>,
    session: u32,
    world: World,
) -> Result<(), AllocError>
    ensures { OnOk result (out.new.items ≡ out.old.items ++ site_words session world) }
{
    put_number(alloc, out, u64::from(session))?;
    out.push(b' ')?;
    put_world(out, world)
}
