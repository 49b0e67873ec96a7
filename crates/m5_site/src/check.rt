//! Whether parts are those of an object.

ghost use Rattle.std.specs.Prelude.{◌≡◌, ◌≤◌, ◌↔◌, IsTrue, Some, length, slice_get};
ghost use Rattle.std.specs.List.{list_all};
ghost use Rattle.m5_message.specs.Message.{label_stands};
ghost use Rattle.m5_site.specs.Object.{takes_unit, is_unit, is_empty, is_asked_at, is_step_at, HasItsLabels, IsCodeAt};

use m5_dictionary::dicts::Dicts;
use m5_dictionary::line::{TypeLine, code_of_world};
use m5_machine::blocks::Blocks;
use m5_machine::step::Step;
use m5_terms::types::World;

/// Whether a type id stands for unit.
fn is_unit(dicts: &Dicts, id: u32) -> bool
    ensures { result ≡ is_unit (slice_get dicts.now.types id) }
{
    matches!(dicts.line(id), Some(TypeLine::Unit))
}

/// Whether these are no type ids.
fn is_empty(ids: &[u32]) -> bool
    ensures { result ≡ is_empty ids.now }
{
    ids.is_empty()
}

/// Whether a label stands at a world, takes unit and nothing from outside.
pub fn takes_unit(dicts: &Dicts, world: World, label: u16) -> bool
    ensures { result ≡ takes_unit dicts.now world label }
{
    match dicts.label(label) {
        None => false,
        Some(entrance) => {
            entrance.stands_at(world)
                && is_unit(dicts, entrance.argument())
                && is_empty(entrance.environment())
        }
    }
}

/// Whether a primitive is one of a world's.
fn is_asked_at(world: World, primitive: u8) -> bool
    ensures { result ≡ is_asked_at world primitive }
{
    match world {
        World::Home => primitive <= 3,
        World::Server => 4 <= primitive && primitive <= 6,
        World::Panel => primitive == 7,
        World::Any => false,
    }
}

/// Whether a world's code may have a step.
fn is_step_at(world: World, step: &Step) -> bool
    ensures { result ≡ is_step_at world step.now }
{
    match step {
        Step::Ask(primitive, _, _) => is_asked_at(world, *primitive),
        Step::Send(to, _, _) => *to != code_of_world(world),
        _ => true,
    }
}

fn are_steps_at(world: World, steps: &[Step]) -> bool
    ensures { result ≡ list_all (is_step_at world) steps.now }
{
    steps.iter().all(|step| is_step_at(world, step))
}

/// Whether a label is one of a world's code.
fn stands_at(dicts: &Dicts, world: World, label: u16) -> bool
    ensures { result ≡ label_stands dicts.now world (Some label) }
{
    match dicts.label(label) {
        None => false,
        Some(entrance) => entrance.stands_at(world),
    }
}

/// Whether a code has a block for exactly the labels that stand at a world.
fn has_its_labels(dicts: &Dicts, world: World, code: &Blocks) -> bool
    requires { length code.now.starts ≤ 65536 }
    ensures { IsTrue result ↔ HasItsLabels dicts.now world code.now }
{
    dicts.are_dictionaries();
    for number in 0..65536u32 {
        let label = number as u16;
        if code.start(label).is_some() != stands_at(dicts, world, label) {
            return false;
        }
    }
    true
}

/// Whether blocks are the code of a world.
pub fn is_code_at(dicts: &Dicts, world: World, code: &Blocks) -> bool
    requires { length code.now.starts ≤ 65536 }
    ensures { IsTrue result ↔ IsCodeAt dicts.now world code.now }
{
    are_steps_at(world, code.steps()) && has_its_labels(dicts, world, code)
}
