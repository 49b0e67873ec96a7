//! The ids of types.

ghost use Rattle.std.specs.Prelude.{◌≡◌, ◌<◌, length, map, IfOk, OnOk};
ghost use Rattle.std.specs.List.{AllZip};
ghost use Rattle.m5_cps.specs.TypesByNumber.{type_in};
ghost use Rattle.m5_cps.specs.Steps.{argument_of, entry_of};
ghost use Rattle.m5_flat.specs.Steps.{kind_of};
ghost use Rattle.m5_dict.specs.Lines.{Grows, IsCallLine};
ghost use Rattle.m5_dict.specs.Standing.{Stands, slot_target, type_target, entry_target};
ghost use Rattle.m5_dict.specs.Known.{Knows};

use crate::memory::Memory;
use crate::target::{Target, address};
use crate::targets::Targets;
use m5_cps::entry::{Argument, Entry};
use m5_cps::types::{TypeRow, Types};
use m5_flat::label::Kind;
use std::alloc::Global;

/// The ids of all types, by number. A type's parts stand before it, so each is looked at once.
pub fn type_ids(alloc: Global, types: &Types, targets: &mut Targets) -> Result<Vec<u32>, Memory>
    ensures { IfOk result (λ ids. Knows types.now targets.new ids.items) }
{
    let mut ids = Vec::new(alloc);
    for number in 0..types.count() {
        let id = type_id(types, number, ids.as_slice(), targets)?;
        ids.push(id)?;
    }
    Ok(ids)
}

/// The id of a type, where those of the first types are known.
fn type_id(
    types: &Types,
    number: usize,
    known: &[u32],
    targets: &mut Targets,
) -> Result<u32, Memory>
    requires known { Knows types.now targets.old known.now }
    ensures stands { IfOk result (λ id. Stands targets.new id (type_target (type_in types.now number))) }
    ensures grows { OnOk result (Grows targets.old targets.new) }
{
    if number < known.len() {
        return Ok(known[number]);
    }
    match types.row(number) {
        TypeRow::Unit => targets.number(Target::Unit),
        TypeRow::Bool => targets.number(Target::Bool),
        TypeRow::Int => targets.number(Target::Int),
        TypeRow::Str => targets.number(Target::Text),
        TypeRow::Address(world) => targets.number(address(world)),
        TypeRow::Product(a, b) => {
            let first = type_id(types, a, known, targets)?;
            let second = type_id(types, b, known, targets)?;
            targets.number(Target::Pair(first, second))
        }
        TypeRow::Sum(a, b) => {
            let left = type_id(types, a, known, targets)?;
            let right = type_id(types, b, known, targets)?;
            targets.number(Target::Sum(left, right))
        }
        TypeRow::Function(a, b) => {
            let argument = type_id(types, a, known, targets)?;
            let result = type_id(types, b, known, targets)?;
            let pair = call_id(argument, result, targets)?;
            targets.number(Target::Fun(pair))
        }
        TypeRow::List(a) => {
            let item = type_id(types, a, known, targets)?;
            targets.number(Target::List(item))
        }
        TypeRow::Cell(_) => targets.number(Target::Cell),
        TypeRow::Sham(a) | TypeRow::At(a, _) => type_id(types, a, known, targets),
    }
}

/// The id of what a call takes: an argument, and a continuation for the result.
fn call_id(argument: u32, result_id: u32, targets: &mut Targets) -> Result<u32, Memory>
    requires argument { argument < length targets.old }
    requires result { result_id < length targets.old }
    ensures is { IfOk result (λ id. IsCallLine targets.new id argument result_id) }
    ensures grows { OnOk result (Grows targets.old targets.new) }
{
    let continuation = targets.number(Target::Fun(result_id))?;
    targets.number(Target::Pair(argument, continuation))
}

/// The id of the type of what a slot has.
fn kind_id(types: &Types, kind: Kind, known: &[u32], targets: &mut Targets) -> Result<u32, Memory>
    requires known { Knows types.now targets.old known.now }
    ensures stands { IfOk result (λ id. Stands targets.new id (slot_target (kind_of types.now kind))) }
    ensures grows { OnOk result (Grows targets.old targets.new) }
{
    let mut id = type_id(types, kind.number, known, targets)?;
    for time in 0..kind.times {
        id = targets.number(Target::Fun(id))?;
    }
    Ok(id)
}

/// The id of the type of what a block is entered with.
fn argument_id(
    types: &Types,
    argument: Argument,
    known: &[u32],
    targets: &mut Targets,
) -> Result<u32, Memory>
    requires known { Knows types.now targets.old known.now }
    ensures stands { IfOk result (λ id. Stands targets.new id (slot_target (argument_of types.now argument))) }
    ensures grows { OnOk result (Grows targets.old targets.new) }
{
    match argument {
        Argument::Value(number) => type_id(types, number, known, targets),
        Argument::Continuation(number) => {
            let taken = type_id(types, number, known, targets)?;
            targets.number(Target::Fun(taken))
        }
    }
}

/// The id of the type of what a block takes.
pub fn entry_id(
    types: &Types,
    entry: Entry,
    known: &[u32],
    targets: &mut Targets,
) -> Result<u32, Memory>
    requires known { Knows types.now targets.old known.now }
    ensures stands { IfOk result (λ id. Stands targets.new id (entry_target (entry_of types.now entry))) }
    ensures grows { OnOk result (Grows targets.old targets.new) }
{
    match entry {
        Entry::ByValue(_, argument) => argument_id(types, argument, known, targets),
        Entry::ByCall(_, first, second) => {
            let argument = type_id(types, first, known, targets)?;
            let result = type_id(types, second, known, targets)?;
            call_id(argument, result, targets)
        }
    }
}

/// The ids of the types of an environment.
pub fn environment_ids(
    alloc: Global,
    types: &Types,
    kinds: &[Kind],
    known: &[u32],
    targets: &mut Targets,
) -> Result<Vec<u32>, Memory>
    requires known { Knows types.now targets.old known.now }
    ensures stand { IfOk result (λ ids. AllZip (Stands targets.new) ids.items (map (λ k. slot_target (kind_of types.now k)) kinds.now)) }
    ensures grows { OnOk result (Grows targets.old targets.new) }
{
    let mut ids = Vec::new(alloc);
    for kind in kinds {
        ids.push(kind_id(types, *kind, known, targets)?)?;
    }
    Ok(ids)
}
