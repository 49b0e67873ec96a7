//! A thread written as a message.

ghost use Rattle.std.specs.Prelude.{◌≡◌, ℕ, ◌<◌, ◌^◌, Some, length, slice_get, IfOk};
ghost use Rattle.m5_terms.specs.declared.types.World.{World as Place};
ghost use Rattle.m5_dictionary.specs.declared.line.TypeLine.TheVariants as lines;
ghost use Rattle.m5_dictionary.specs.Dictionaries.{Entrance};
ghost use Rattle.m5_message.specs.Packing.{IsSendable, sent_from, packed};
ghost use Rattle.m5_marshal.specs.Pack.{HasBytes, Packs};
ghost use Rattle.m5_marshal.specs.code.Keys.{reached, marks, HasAll, sending, Entered};

use crate::key::Key;
use crate::marking::{insert, mark, target, want};
use crate::spell::{put_distance, put_short, put_value};
use crate::writing::{put_contents, put_ids};
use m5_dictionary::dicts::Dicts;
use m5_dictionary::line::{TypeLine, is_same_line};
use m5_region::queue::Ready;
use m5_region::region::Region;
use m5_region::value::{Ref, Value};
use m5_terms::seal::Seal;
use m5_terms::text::Text;
use std::alloc::{AllocError, Global};
use std::collections::BTreeSet;

/// The type id of the functions that take this argument.
pub(crate) fn function_of(types: &[TypeLine], argument: u32) -> u32
    requires { length types.now < 2 ^ 32 }
    ensures { (n : ℕ) → slice_get types.now n ≡ Some (lines.Fun argument) → slice_get types.now result ≡ Some (lines.Fun argument) }
{
    for id in 0..types.len() {
        if is_same_line(types[id], TypeLine::Fun(argument)) {
            return id as u32;
        }
    }
    0
}

/// The type id of the argument with which a closure is entered.
fn argument_of(region: &Region, dicts: &Dicts, at: Ref) -> u32
    requires { (e : Entrance) × Entered dicts.now region.now.objects at.0 e }
    ensures { (e : Entrance) → Entered dicts.now region.now.objects at.0 e → result ≡ e.argument }
{
    dicts.are_dictionaries();
    match region.field(at, 0) {
        Value::Int(number) => {
            if number < 0 || 0xffff < number {
                return 0;
            }
            match dicts.label(number as u16) {
                None => 0,
                Some(entrance) => entrance.argument(),
            }
        }
        _ => 0,
    }
}

/// The message of a thread whose pairs are these, behind the seal.
fn spelled(
    alloc: Global,
    region: &Region,
    dicts: &Dicts,
    seal: &Seal,
    keys: &[Key],
    code: Key,
    argument_id: u32,
    argument: Value,
) -> Result<Vec<u8>, AllocError>
    requires sendable { (w : Place) × IsSendable dicts.now w region.now.objects (sending code argument argument_id) }
    requires keys { marks keys.now ≡ sent_from dicts.now region.now.objects (sending code argument argument_id) }
    requires whole { HasAll dicts.now region.now.objects (marks keys.now) }
    ensures { IfOk result (λ out. (w : Place) → IsSendable dicts.now w region.now.objects (sending code argument argument_id) → out.items ≡ packed dicts.now w seal.now.0 region.now.objects (sending code argument argument_id)) }
{
    dicts.are_dictionaries();
    let mut out = Vec::new(alloc);
    out.extend_from_slice(&seal.0)?;
    out.push(2)?;
    let count = keys.len();
    put_short(&mut out, count as u64)?;
    put_ids(&mut out, keys)?;
    put_contents(&mut out, region, dicts, keys)?;
    put_distance(&mut out, keys, count, code)?;
    put_value(&mut out, dicts, keys, count, argument_id, argument)?;
    Ok(out)
}

/// What is sent for a thread.
fn pairs(
    alloc: Global,
    region: &Region,
    dicts: &Dicts,
    code: Key,
    argument_id: u32,
    argument: Value,
) -> Result<Vec<Key>, AllocError>
    requires { (w : Place) × IsSendable dicts.now w region.now.objects (sending code argument argument_id) }
    ensures is { IfOk result (λ keys. marks keys.items ≡ sent_from dicts.now region.now.objects (sending code argument argument_id)) }
    ensures whole { IfOk result (λ keys. HasAll dicts.now region.now.objects (marks keys.items)) }
{
    let mut wanted = BTreeSet::new(alloc);
    insert(&mut wanted, code)?;
    want(&mut wanted, dicts, argument_id, argument)?;
    let keys = mark(alloc, region, dicts, wanted)?;
    Ok(keys)
}

/// The bytes that are sent for a thread, in the second format: an object for each pair of an object
/// of the region and a type id at which the closure or the argument reaches it, by the object's age
/// and then by the type id. Unpacking them gives the same thread.
pub fn pack(
    alloc: Global,
    region: &Region,
    dicts: &Dicts,
    seal: &Seal,
    thread: &Ready,
) -> Result<Text, AllocError>
    requires { HasBytes dicts.now region.now.objects thread.now }
    ensures { IfOk result (λ text. Packs dicts.now seal.now.0 region.now.objects thread.now text) }
{
    dicts.are_dictionaries();
    let at = target(thread.code);
    let argument_id = argument_of(region, dicts, Ref(at));
    let id = function_of(dicts.types(), argument_id);
    let code = Key { at, id };
    let keys = pairs(alloc, region, dicts, code, argument_id, thread.argument)?;
    let keys = keys.as_slice();
    let out = spelled(
        alloc,
        region,
        dicts,
        seal,
        keys,
        code,
        argument_id,
        thread.argument,
    )?;
    let text = Text::of(alloc, out.as_slice())?;
    Ok(text)
}
