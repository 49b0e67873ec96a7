//! What is sent of a region: the pairs of an object and a type id that a thread reaches.

ghost use Rattle.std.specs.Prelude.{◌≡◌, ◌∷◌, ◌<◌, ◌≤◌, ◌+◌, ◌^◌, List, [], length, slice_get, Some, OnOk, IfOk};
ghost use Rattle.m5_region.specs.Region.{fields_of};
ghost use Rattle.m5_message.specs.Reading.{is_object_line};
ghost use Rattle.m5_message.specs.Packing.{Reached, IsFit, AreFit, target, value_reaches, values_reach, opened_reaches, reaches, marked};
ghost use Rattle.m5_marshal.specs.code.Opened.{opening, others_of};
ghost use Rattle.m5_marshal.specs.code.Keys.{reached, to_mark, marks, HasMore, OpensAs, Below, HasFields, HasAll, values_behind};

use crate::ids::is_object_id;
use crate::key::Key;
use crate::opened::opened;
use crate::opening::{Opened, Others};
use crate::pass::{count_of, other_at};
use m5_dictionary::dicts::Dicts;
use m5_region::region::Region;
use m5_region::value::{Ref, Value};
use std::alloc::{AllocError, Global};
use std::collections::BTreeSet;

/// The number of the object to which a value refers.
pub(crate) fn target(value: Value) -> u32
    ensures { result ≡ target value }
{
    match value {
        Value::Text(at) | Value::Array(at) => at.0,
        _ => 0,
    }
}

/// Marks a pair.
pub(crate) fn insert(todo: &mut BTreeSet<Key>, key: Key) -> Result<(), AllocError>
    ensures { OnOk result (HasMore (to_mark todo.old) (reached key ∷ []) (to_mark todo.new)) }
{
    todo.insert(key)?;
    Ok(())
}

/// Marks what a value of a type reaches at once.
pub(crate) fn want(
    todo: &mut BTreeSet<Key>,
    dicts: &Dicts,
    id: u32,
    value: Value,
) -> Result<(), AllocError>
    ensures { OnOk result (HasMore (to_mark todo.old) (value_reaches (is_object_line (slice_get dicts.now.types id)) id value) (to_mark todo.new)) }
{
    if is_object_id(dicts, id) {
        let at = target(value);
        insert(todo, Key { at, id })?;
    }
    Ok(())
}

/// Marks what the fields of an array behind its first ones reach.
fn want_fields(
    todo: &mut BTreeSet<Key>,
    region: &Region,
    dicts: &Dicts,
    at: Ref,
    first: u32,
    others: Others,
) -> Result<(), AllocError>
    requires there { HasFields region.now.objects at.0 (first + length (others_of others)) }
    requires few { first + length (others_of others) < 2 ^ 32 }
    ensures { OnOk result (HasMore (to_mark todo.old) (values_reach dicts.now (others_of others.entry) (values_behind region.now.objects at.0 first)) (to_mark todo.new)) }
{
    let count = count_of(others);
    for place in 0..count {
        let id = other_at(others, place);
        let value = region.field(at, first + place as u32);
        want(todo, dicts, id, value)?;
    }
    Ok(())
}

/// Marks what an object reaches at once.
pub(crate) fn want_parts(
    todo: &mut BTreeSet<Key>,
    region: &Region,
    dicts: &Dicts,
    key: Key,
) -> Result<(), AllocError>
    requires { IsFit dicts.now region.now.objects (reached key) (slice_get region.now.objects key.at) }
    ensures { OnOk result (HasMore (to_mark todo.old) (reaches dicts.now region.now.objects (reached key)) (to_mark todo.new)) }
{
    match opened(region, dicts, key) {
        Opened::Whole(_) => Ok(()),
        Opened::Pair(others) => want_fields(todo, region, dicts, Ref(key.at), 0, others),
        Opened::Parts(_, others) => want_fields(todo, region, dicts, Ref(key.at), 1, others),
    }
}

/// The pairs that are reached from some, in order.
pub(crate) fn mark(
    alloc: Global,
    region: &Region,
    dicts: &Dicts,
    wanted: BTreeSet<Key>,
) -> Result<Vec<Key>, AllocError>
    requires below { Below dicts.now region.now.objects (to_mark wanted) }
    requires fit { AreFit dicts.now region.now.objects (marked dicts.now region.now.objects (length region.now.objects) (to_mark wanted)) }
    ensures is { IfOk result (λ keys. marks keys.items ≡ marked dicts.now region.now.objects (length region.now.objects) (to_mark wanted)) }
    ensures whole { IfOk result (λ keys. HasAll dicts.now region.now.objects (marks keys.items)) }
{
    dicts.are_dictionaries();
    let mut todo = wanted;
    let mut done = Vec::new(alloc);
    while let Some(key) = todo.pop_last() {
        want_parts(&mut todo, region, dicts, key)?;
        done.push(key)?;
    }
    done.reverse();
    Ok(done)
}
