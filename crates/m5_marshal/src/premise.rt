//! Whether a thread has bytes.

ghost use Rattle.std.specs.Prelude.{◌≡◌, ◌↔◌, ◌<◌, ◌^◌, length, slice_get, Some, IsTrue, IsSomeAnd, IfOk, IfSome, IfNone};
ghost use Rattle.m5_region.specs.Region.{IsArray, Refers};
ghost use Rattle.m5_dictionary.specs.Dictionaries.{Entrance};
ghost use Rattle.m5_message.specs.Packing.{AreFit, marked, sent_from};
ghost use Rattle.m5_marshal.specs.Pack.{HasBytes};
ghost use Rattle.m5_marshal.specs.code.Keys.{to_mark, sending, Entered};
ghost use Rattle.m5_marshal.specs.code.Fits.{AreKinded, FewFit, CanStart, Starts};

use crate::fits::{is_fit, is_of};
use crate::key::Key;
use crate::marking::{insert, want, want_parts};
use crate::packing::function_of;
use m5_dictionary::dicts::Dicts;
use m5_dictionary::label::Label;
use m5_dictionary::line::{TypeLine, is_same_line};
use m5_region::queue::Ready;
use m5_region::region::Region;
use m5_region::value::{Ref, Value};
use std::alloc::{AllocError, Global};
use std::collections::BTreeSet;

/// Whether all that is reached from some pairs is of the types at which it is reached, and few.
fn are_fit(region: &Region, dicts: &Dicts, wanted: BTreeSet<Key>) -> Result<bool, AllocError>
    requires { AreKinded dicts.now region.now.objects (to_mark wanted) }
    ensures { IfOk result (λ b. IsTrue b ↔ FewFit dicts.now region.now.objects (marked dicts.now region.now.objects (length region.now.objects) (to_mark wanted))) }
{
    dicts.are_dictionaries();
    region.refers_to_older();
    let mut todo = wanted;
    let mut count: u32 = 0;
    while let Some(key) = todo.pop_last() {
        if count == u32::MAX || !is_fit(region, dicts, key) {
            return Ok(false);
        }
        count += 1;
        want_parts(&mut todo, region, dicts, key)?;
    }
    Ok(true)
}

/// Whether all that a closure and its argument reach is of its types, and few.
fn all_fit(
    alloc: Global,
    region: &Region,
    dicts: &Dicts,
    code: Key,
    argument_id: u32,
    argument: Value,
) -> Result<bool, AllocError>
    requires { CanStart dicts.now region.now.objects (sending code argument argument_id) }
    ensures { IfOk result (λ b. IsTrue b ↔ FewFit dicts.now region.now.objects (sent_from dicts.now region.now.objects (sending code argument argument_id))) }
{
    let mut wanted = BTreeSet::new(alloc);
    insert(&mut wanted, code)?;
    want(&mut wanted, dicts, argument_id, argument)?;
    let fit = are_fit(region, dicts, wanted)?;
    Ok(fit)
}

/// The label of a closure.
fn label_of<'d>(region: &Region, dicts: &'d Dicts, at: Ref) -> Option<&'d Label>
    requires { IsSomeAnd (slice_get region.now.objects at.0) IsArray }
    ensures some { IfSome result (λ label. Entered dicts.now region.now.objects at.0 label.now) }
    ensures none { IfNone result ((e : Entrance) → Entered dicts.now region.now.objects at.0 e → ⊥) }
{
    dicts.are_dictionaries();
    region.refers_to_older();
    match region.field(at, 0) {
        Value::Int(number) => {
            if number < 0 || 0xffff < number {
                return None;
            }
            dicts.label(number as u16)
        }
        _ => None,
    }
}

/// The closure with its type id, and the type id of the argument.
fn start_of(region: &Region, dicts: &Dicts, thread: &Ready) -> Option<(Key, u32)>
    requires { Refers region.now.objects thread.now.code }
    ensures some { IfSome result (λ x. Starts dicts.now region.now.objects thread.now (sending x.0 thread.now.argument x.1)) }
    ensures none { IfNone result (HasBytes dicts.now region.now.objects thread.now → ⊥) }
{
    dicts.are_dictionaries();
    match thread.code {
        Value::Array(at) => match label_of(region, dicts, at) {
            None => None,
            Some(label) => {
                let argument_id = label.argument();
                let id = function_of(dicts.types(), argument_id);
                match dicts.line(id) {
                    None => None,
                    Some(line) => {
                        if is_same_line(line, TypeLine::Fun(argument_id)) {
                            Some((Key { at: at.0, id }, argument_id))
                        } else {
                            None
                        }
                    }
                }
            }
        },
        _ => None,
    }
}

/// Whether a thread of this region has bytes, so that `pack` may be called: its code is a closure of
/// a label, its argument is of the type that the label takes, and all that the two reach is of the
/// types at which it is reached, fewer than 2 ^ 32 objects in all.
pub fn has_bytes(
    alloc: Global,
    region: &Region,
    dicts: &Dicts,
    thread: &Ready,
) -> Result<bool, AllocError>
    requires code { Refers region.now.objects thread.now.code }
    requires argument { Refers region.now.objects thread.now.argument }
    ensures { IfOk result (λ b. IsTrue b ↔ HasBytes dicts.now region.now.objects thread.now) }
{
    match start_of(region, dicts, thread) {
        None => Ok(false),
        Some((code, argument_id)) => {
            if !is_of(dicts, region.count(), argument_id, thread.argument) {
                return Ok(false);
            }
            all_fit(alloc, region, dicts, code, argument_id, thread.argument)
        }
    }
}
