//! Adding objects while they are read.

ghost use Rattle.std.specs.Prelude.{All, map, IsSome, ◌≡◌, ◌≤◌, ◌<◌, ◌+◌, ◌-◌, ◌*◌, ◌^◌, length, take, Some, slice_get, IsSomeAnd};
ghost use Rattle.m5_region.specs.Region.{fields_of, field_of, Refers};
ghost use Rattle.m5_message.specs.Numbers.{Gives};
ghost use Rattle.m5_marshal.specs.code.Opened.{opening, others_of, FitsArray};
ghost use Rattle.m5_message.specs.Packing.{target};
ghost use Rattle.m5_message.specs.Reading.{values_at, closing_at, content_at};
ghost use Rattle.m5_marshal.specs.code.Ids.{words};
ghost use Rattle.m5_marshal.specs.code.Adding.{rest_of, Kinds, Fills, FillsTo, Added, array_at, first_of};
ghost use Rattle.m5_message.specs.Sharing.{shifted};

use crate::field::value_of;
use crate::opening::{Opened, Others, open};
use crate::pass::{count_of, other_at, pass_values};
use m5_dictionary::dicts::Dicts;
use m5_message::format::Format;
use m5_region::region::Region;
use m5_region::value::{Ref, Value};

/// A message's value, in a region that had so many objects.
pub(crate) fn shifted(base: u32, value: Value) -> Value
    requires { base + target value < 2 ^ 32 }
    ensures { result ≡ shifted base value }
{
    match value {
        Value::Text(at) => Value::Text(Ref(base + at.0)),
        Value::Array(at) => Value::Array(Ref(base + at.0)),
        _ => value,
    }
}

/// Reads values of these types into the newest array, from a place on. The message has `own` objects before it.
pub(crate) fn fill_values<'b>(
    region: &mut Region,
    at: Ref,
    from: u32,
    dicts: &Dicts,
    format: Format,
    ids: &[u8],
    own: u32,
    others: Others,
    bytes: &'b [u8],
) -> Result<&'b [u8], usize>
    requires newest { at.0 + 1 ≡ length region.old.objects }
    requires small { at.0 < 2 ^ 32 }
    requires own { own ≤ at.0 }
    requires room { IsSomeAnd (fields_of region.old.objects at.0) (λ fs. from + length (others_of others) ≤ length fs) }
    requires few { from + length (others_of others) < 2 ^ 32 }
    requires kinds { Kinds dicts.now (words ids.now) (at.0 - own) own (take at.0 region.old.objects) }
    ensures { Fills (λ x. x.now) region.old at.0 from (at.0 - own) (values_at dicts.now format (words ids.now) own (others_of others.entry) bytes.now) result region.new }
{
    let base = at.0 - own;
    let mut rest = bytes;
    let count = count_of(others);
    for place in 0..count {
        let id = other_at(others, place);
        match value_of(dicts, format, ids, own, id, rest) {
            Ok((value, after)) => {
                region.fill(at, from + place as u32, shifted(base, value));
                rest = after;
            }
            Err(left) => return Err(left),
        }
    }
    Ok(rest)
}

fn count_first(first: Option<Value>) -> u32
    ensures { result ≡ length (first_of first) }
{
    match first {
        None => 0,
        Some(_) => 1,
    }
}

/// Sets the first field of the newest array.
#[tactic(auto, unfolding(crate::specs::code::Adding::set_fields))]
fn fill_first(region: &mut Region, at: Ref, first: Option<Value>) -> u32
    requires newest { at.0 + 1 ≡ length region.old.objects }
    requires there { IsSome (field_of region.old.objects at.0 0) }
    requires plain { All (Refers (take at.0 region.old.objects)) (first_of first) }
    ensures from { result ≡ length (first_of first) }
    ensures objects_with_field { FillsTo region.old at.0 0 (first_of first) region.new }
{
    match first {
        None => 0,
        Some(value) => {
            region.fill(at, 0, value);
            1
        }
    }
}

/// Reads an array behind its first field, and adds it where it fits.
fn add_array<'b>(
    region: &mut Region,
    first: Option<Value>,
    dicts: &Dicts,
    format: Format,
    ids: &[u8],
    own: u32,
    others: Others,
    bytes: &'b [u8],
) -> Result<(&'b [u8], bool), usize>
    requires own { own ≤ length region.old.objects }
    requires few { length region.old.objects < 2 ^ 32 }
    requires some { 0 < length (first_of first) + length (others_of others) }
    requires short { length (first_of first) + length (others_of others) < 65536 }
    requires plain { All (Refers region.old.objects) (first_of first) }
    requires still { map (shifted (length region.old.objects - own)) (first_of first) ≡ first_of first }
    requires kinds { Kinds dicts.now (words ids.now) (length region.old.objects - own) own region.old.objects }
    ensures { Added (λ x. x.now) region.old (length region.old.objects - own) (array_at (first_of first) (values_at dicts.now format (words ids.now) own (others_of others.entry) bytes.now)) result region.new }
{
    match region.add_nulls(count_first(first) + count_of(others) as u32) {
        None => match pass_values(dicts, format, ids, own, others, bytes) {
            Ok(rest) => Ok((rest, false)),
            Err(left) => Err(left),
        },
        Some(at) => {
            let from = fill_first(region, at, first);
            match fill_values(region, at, from, dicts, format, ids, own, others, bytes) {
                Ok(rest) => Ok((rest, true)),
                Err(left) => Err(left),
            }
        }
    }
}

/// Reads an object behind its first fields, and adds it where it fits.
fn add_opened<'b>(
    region: &mut Region,
    dicts: &Dicts,
    format: Format,
    ids: &[u8],
    own: u32,
    opened: Opened,
    bytes: &'b [u8],
) -> Result<(&'b [u8], bool), usize>
    requires own { own ≤ length region.old.objects }
    requires few { length region.old.objects < 2 ^ 32 }
    requires fits { FitsArray opened }
    requires kinds { Kinds dicts.now (words ids.now) (length region.old.objects - own) own region.old.objects }
    ensures { Added (λ x. x.now) region.old (length region.old.objects - own) (closing_at dicts.now format (words ids.now) own (opening opened.entry) bytes.now) result region.new }
{
    match opened {
        Opened::Whole(letters) => match region.add_text(letters) {
            None => Ok((bytes, false)),
            Some(_) => Ok((bytes, true)),
        },
        Opened::Pair(others) => add_array(region, None, dicts, format, ids, own, others, bytes),
        Opened::Parts(first, others) => {
            add_array(region, Some(first), dicts, format, ids, own, others, bytes)
        }
    }
}

/// Reads the content of an object of this type id, and adds the object where it fits. The message
/// has `own` objects before it, which were all added.
#[tactic(auto, unfolding(m5_message::specs::Reading::content_at))]
pub(crate) fn add_content<'b>(
    region: &mut Region,
    dicts: &Dicts,
    format: Format,
    ids: &[u8],
    own: u32,
    id: u32,
    bytes: &'b [u8],
) -> Result<(&'b [u8], bool), usize>
    requires own { own ≤ length region.old.objects }
    requires few { length region.old.objects < 2 ^ 32 }
    requires kinds { Kinds dicts.now (words ids.now) (length region.old.objects - own) own region.old.objects }
    ensures { Added (λ x. x.now) region.old (length region.old.objects - own) (content_at dicts.now format (words ids.now) own id bytes.now) result region.new }
{
    match open(dicts, format, id, bytes) {
        Err(left) => Err(left),
        Ok((opened, rest)) => add_opened(region, dicts, format, ids, own, opened, rest),
    }
}
