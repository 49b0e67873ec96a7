//! The slices of a flat program.

ghost use Rattle.std.specs.Prelude.{◌≡◌, IfOk};
ghost use Rattle.m5_terms.specs.declared.types.World.{World as AtWorld};
ghost use Rattle.m5_terms.specs.Worlds.{IsSiteWorld};
ghost use Rattle.m5_flat.specs.Program.{IsProgram};
ghost use Rattle.m5_flat.specs.Table.{blocks_of};
ghost use Rattle.m5_dict.specs.Dictionaries.{AreDictionariesOf};
ghost use Rattle.m5_slice.specs.Slicing.{cut};
ghost use Rattle.m5_slice.specs.code.Slices.{slice_at};
ghost use Rattle.m5_slice.specs.Going.{GoesOnAs};
ghost use Rattle.m5_slice.specs.Apart.{IsApart};

use crate::writing::{labels, primitives, steps};
use m5_dictionary::dicts::Dicts;
use m5_flat::program::Flat;
use m5_flat::table::{Ends, Table};
use m5_terms::types::World;
use std::alloc::{AllocError, Global};

/// One slice for each world that has sites.
#[derive(Drop)]
pub struct Slices {
    pub home: Flat,
    pub server: Flat,
    pub panel: Flat,
}

/// The slice of a world: the blocks that do not stand there are empty.
fn slice_of(alloc: Global, flat: &Flat, dicts: &Dicts, world: World) -> Result<Flat, AllocError>
    requires { AreDictionariesOf (blocks_of flat.now) dicts.now }
    ensures { IfOk result (λ f. blocks_of f ≡ cut world (blocks_of flat.now)) }
{
    let table = flat.table();
    let _labels = table.labels();
    let ends = Ends {
        main: table.main(),
        finish: table.finish(),
    };
    let steps = steps(alloc, table, world)?;
    let labels = labels(alloc, table, dicts, world)?;
    let primitives = primitives(alloc, table, world)?;
    let types = table.types().copy(alloc)?;
    Ok(Flat::make(Table::make(types, steps, labels, primitives, ends)))
}

/// The slices of a flat program: in each all labels have their numbers, and those of blocks that do not
/// stand at its world end at once.
///
/// The time is proportional to the program.
pub fn slice(alloc: Global, flat: &Flat, dicts: &Dicts) -> Result<Slices, AllocError>
    requires { AreDictionariesOf (blocks_of flat.now) dicts.now }
    ensures cut { IfOk result (λ s. (w : AtWorld) → IsSiteWorld w → blocks_of (slice_at s w) ≡ cut w (blocks_of flat.now)) }
    ensures goes_on { IfOk result (λ s. (d : IsProgram (blocks_of flat.now)) (w : AtWorld) → IsSiteWorld w → GoesOnAs (blocks_of flat.now) d (blocks_of (slice_at s w)) w) }
    ensures apart { IfOk result (λ s. (d : IsProgram (blocks_of flat.now)) (w : AtWorld) → IsSiteWorld w → IsApart (blocks_of flat.now) d (blocks_of (slice_at s w)) w) }
{
    Ok(Slices {
        home: slice_of(alloc, flat, dicts, World::Home)?,
        server: slice_of(alloc, flat, dicts, World::Server)?,
        panel: slice_of(alloc, flat, dicts, World::Panel)?,
    })
}
