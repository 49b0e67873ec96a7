//! The steps, the labels and the primitives of a slice.

ghost use Rattle.std.specs.Prelude.{◌≡◌, if◌then◌else◌, map, length, IfOk};
ghost use Rattle.std.specs.List.{filter};
ghost use Rattle.m5_flat.specs.Table.{blocks_of};
ghost use Rattle.m5_flat.specs.Steps.{named_of};
ghost use Rattle.m5_dict.specs.Dictionaries.{AreDictionariesOf};
ghost use Rattle.m5_slice.specs.Slicing.{is_primitive_at};
ghost use Rattle.m5_slice.specs.code.Written.{written_step, written_steps, written_label};

use m5_cps::step::Ending;
use m5_dictionary::dicts::Dicts;
use m5_flat::copying;
use m5_flat::label::{Label, Named};
use m5_flat::step::Step;
use m5_flat::table::Table;
use m5_terms::listed::Listed;
use m5_terms::types::{World, is_same_world};
use std::alloc::{AllocError, Global};

/// A step at the world: no primitive of another world is asked.
fn step(alloc: Global, step: &Step, world: World) -> Result<Step, AllocError>
    ensures { IfOk result (λ s. s ≡ written_step world step.now) }
{
    match step {
        Step::Ends(Ending::Ask(prim, argument, next)) => {
            if is_same_world(prim.world(), world) {
                Ok(Step::Ends(Ending::Ask(*prim, *argument, *next)))
            } else {
                Ok(Step::Ends(Ending::Done))
            }
        }
        _ => copying::step(alloc, step),
    }
}

/// The steps at the world, and behind them the end of the blocks that are left out.
pub fn steps(alloc: Global, table: &Table, world: World) -> Result<Listed<Step>, AllocError>
    ensures { IfOk result (λ l. l ≡ written_steps world table.now.steps) }
{
    let mut list = Listed::make(alloc);
    for item in table.steps() {
        list.push(step(alloc, item, world)?)?;
    }
    list.push(Step::Ends(Ending::Done))?;
    Ok(list)
}

/// A label that stands at the world, or of an empty block.
fn label(alloc: Global, label: &Label, stands: bool, end: usize) -> Result<Label, AllocError>
    ensures { IfOk result (λ l. l ≡ (if stands then label.now else record label.now { place = end })) }
{
    let mut written = copying::label(alloc, label)?;
    if !stands {
        written.place = end;
    }
    Ok(written)
}

/// The labels, of which those that do not stand at the world begin at the end.
pub fn labels(
    alloc: Global,
    table: &Table,
    dicts: &Dicts,
    world: World,
) -> Result<Listed<Label>, AllocError>
    requires { AreDictionariesOf (blocks_of table.now) dicts.now }
    ensures { IfOk result (λ l. l ≡ map (written_label table.now.types world (length table.now.steps)) table.now.labels) }
{
    let end = table.count();
    let all = table.labels();
    let entrances = dicts.labels();
    let mut list = Listed::make(alloc);
    for index in 0..all.len() {
        list.push(label(alloc, &all[index], entrances[index].stands_at(world), end)?)?;
    }
    Ok(list)
}

/// The labels of the world's primitives.
pub fn primitives(alloc: Global, table: &Table, world: World) -> Result<Listed<Named>, AllocError>
    ensures { IfOk result (λ l. map named_of l ≡ filter (is_primitive_at world) (map named_of table.now.primitives)) }
{
    let mut list = Listed::make(alloc);
    for named in table.primitives() {
        if is_same_world(named.primitive.world(), world) {
            list.push(*named)?;
        }
    }
    Ok(list)
}
