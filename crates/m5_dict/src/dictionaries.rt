//! The dictionaries of flat programs.

ghost use Rattle.std.specs.Prelude.{◌≡◌, IfOk, OnOk};
ghost use Rattle.m5_flat.specs.Table.{blocks_of, block_of};
ghost use Rattle.m5_cps.specs.Entries.{world_of, entry_mode};
ghost use Rattle.m5_cps.specs.Steps.{entry_of};
ghost use Rattle.m5_dict.specs.Lines.{Grows};
ghost use Rattle.m5_dict.specs.Known.{Knows};
ghost use Rattle.m5_dict.specs.Dictionaries.{IsEntranceOf, AreDictionariesOf};

use crate::memory::Memory;
use crate::number::{entry_id, environment_ids, type_ids};
use crate::target::Target;
use crate::targets::Targets;
use m5_cps::entry::Entry;
use m5_cps::types::Types;
use m5_dictionary::dicts::Dicts;
use m5_dictionary::label::Label as Entrance;
use m5_flat::label::Label;
use m5_flat::program::Flat;
use m5_flat::table::Table;
use m5_terms::types::World;
use std::alloc::Global;

/// The dictionaries of a flat program: of each label its world, its argument's type and those of its
/// environment. The type table has a line for the closures of each label, and each line once.
pub fn dictionaries(alloc: Global, flat: &Flat) -> Result<Dicts, Memory>
    ensures { IfOk result (λ d. AreDictionariesOf (blocks_of flat.now) d) }
{
    let table = flat.table();
    let mut targets = Targets::make(alloc);
    let known = type_ids(alloc, table.types(), &mut targets)?;
    let mut labels = Vec::new(alloc);
    for label in table.labels() {
        labels.push(entrance(alloc, table, label, known.as_slice(), &mut targets)?)?;
    }
    Ok(Dicts::make(targets.lines(alloc)?, labels))
}

/// A label's line. The type table has the line of its closures too.
fn entrance(
    alloc: Global,
    table: &Table,
    label: &Label,
    known: &[u32],
    targets: &mut Targets,
) -> Result<Entrance, Memory>
    requires known { Knows table.now.types targets.old known.now }
    ensures is { IfOk result (λ e. IsEntranceOf targets.new e (block_of table.now label.now)) }
    ensures grows { OnOk result (Grows targets.old targets.new) }
{
    let argument = entry_id(table.types(), label.entry, known, targets)?;
    targets.number(Target::Fun(argument))?;
    let environment = environment_ids(
        alloc,
        table.types(),
        label.environment.as_slice(),
        known,
        targets,
    )?;
    Ok(Entrance::of(standing(table.types(), label.entry), argument, environment))
}

/// Where a block that is entered so stands.
fn standing(types: &Types, entry: Entry) -> World
    ensures { result ≡ world_of (entry_mode (entry_of types.now entry)) }
{
    let _ = types;
    match entry {
        Entry::ByValue(mode, _) | Entry::ByCall(mode, _, _) => mode.world(),
    }
}
