//! The fields of a message's contents.

ghost use Rattle.std.specs.Prelude.{◌≡◌, ◌≤◌, ◌<◌, ◌^◌, ◌+◌, ◌*◌, length, pos, nat_lt, IfSome, Some, None, slice_get};
ghost use Rattle.m5_region.specs.declared.value.Value.TheVariants as values;
ghost use Rattle.m5_message.specs.Numbers.{Gives, where_ok, number};
ghost use Rattle.m5_marshal.specs.code.Finds.{Finds};
ghost use Rattle.m5_message.specs.Reading.{flag, seen, value_of_line, reference, reference_at, value_at, letters};
ghost use Rattle.m5_marshal.specs.code.Ids.{words};

use crate::number::{number, number32, number64, older};
use m5_dictionary::dicts::Dicts;
use m5_dictionary::line::{TypeLine, code_of_world};
use m5_message::format::Format;
use m5_region::value::{Ref, Value};
use m5_terms::text::is_text;

/// A byte 00 or 01.
pub(crate) fn flag(bytes: &[u8]) -> Option<(bool, &[u8])>
    ensures { Finds (λ x. (x.0, x.1.now)) result (flag bytes.now) }
{
    match bytes {
        [] => None,
        [0, rest @ ..] => Some((false, rest)),
        [1, rest @ ..] => Some((true, rest)),
        [_, ..] => None,
    }
}

/// The type id of an object, by its place among the bytes.
pub(crate) fn id_in(ids: &[u8], place: u32) -> Option<u32>
    ensures { result ≡ slice_get (words ids.now) place }
{
    let from = 4 * (place as usize);
    if ids.len() < from + 4 {
        return None;
    }
    Some(u32::from_be_bytes([ids[from], ids[from + 1], ids[from + 2], ids[from + 3]]))
}

/// The type id of an object that is there.
pub(crate) fn id_there(ids: &[u8], place: u32) -> u32
    requires { place < length (words ids.now) }
    ensures { slice_get (words ids.now) place ≡ Some result }
{
    let from = 4 * (place as usize);
    u32::from_be_bytes([ids[from], ids[from + 1], ids[from + 2], ids[from + 3]])
}

/// The object of this number, as a value of its type.
fn reference(line: TypeLine, at: u32) -> Value
    ensures { result ≡ reference line at }
{
    match line {
        TypeLine::Text => Value::Text(Ref(at)),
        TypeLine::Pair(_, _) => Value::Array(Ref(at)),
        TypeLine::Sum(_, _) => Value::Array(Ref(at)),
        TypeLine::List(_) => Value::Array(Ref(at)),
        TypeLine::Fun(_) => Value::Array(Ref(at)),
        _ => Value::Null,
    }
}

fn reference_of<'b>(
    format: Format,
    ids: &[u8],
    own: u32,
    id: u32,
    line: TypeLine,
    bytes: &'b [u8],
) -> Option<(Value, &'b [u8])>
    ensures { Finds (λ x. (x.0, x.1.now)) result (reference_at format (words ids.now) own id line bytes.now) }
{
    let (at, rest) = older(format, own, bytes)?;
    let found = id_in(ids, at)?;
    if found == id {
        Some((reference(line, at), rest))
    } else {
        None
    }
}

fn place_of(format: Format, bytes: &[u8]) -> Option<(Value, &[u8])>
    ensures { Finds (λ x. (x.0, x.1.now)) result (seen (λ n. values.Int (pos n)) (where_ok (λ n. nat_lt n 4096) (number format bytes.now))) }
{
    let (place, rest) = number(format, bytes)?;
    if place < 4096 {
        Some((Value::Int(place as i64), rest))
    } else {
        None
    }
}

fn value_found<'b>(
    format: Format,
    ids: &[u8],
    own: u32,
    id: u32,
    line: TypeLine,
    bytes: &'b [u8],
) -> Option<(Value, &'b [u8])>
    ensures { Finds (λ x. (x.0, x.1.now)) result (value_of_line format (words ids.now) own id (Some line) bytes.now) }
{
    match line {
        TypeLine::Unit => Some((Value::Null, bytes)),
        TypeLine::Bool => {
            let (truth, rest) = flag(bytes)?;
            Some((Value::Bool(truth), rest))
        }
        TypeLine::Int => {
            let (n, rest) = number64(bytes)?;
            Some((Value::Int(n.cast_signed()), rest))
        }
        TypeLine::Cell => place_of(format, bytes),
        TypeLine::Addr(world) => Some((Value::Int(code_of_world(world) as i64), bytes)),
        TypeLine::Text => reference_of(format, ids, own, id, line, bytes),
        TypeLine::Pair(_, _) => reference_of(format, ids, own, id, line, bytes),
        TypeLine::Sum(_, _) => reference_of(format, ids, own, id, line, bytes),
        TypeLine::List(_) => reference_of(format, ids, own, id, line, bytes),
        TypeLine::Fun(_) => reference_of(format, ids, own, id, line, bytes),
    }
}

/// A value of a type, in an object of this number.
#[tactic(auto, unfolding(m5_message::specs::Reading::value_at))]
pub(crate) fn value_of<'b>(
    dicts: &Dicts,
    format: Format,
    ids: &[u8],
    own: u32,
    id: u32,
    bytes: &'b [u8],
) -> Result<(Value, &'b [u8]), usize>
    ensures { Gives (λ x. (x.0, x.1.now)) result (value_at dicts.now format (words ids.now) own id bytes.now) }
{
    let line = dicts.line(id).ok_or(bytes.len())?;
    value_found(format, ids, own, id, line, bytes).ok_or(bytes.len())
}

/// That many bytes, each of a text.
pub(crate) fn letters(count: u32, bytes: &[u8]) -> Option<(&[u8], &[u8])>
    ensures { Finds (λ x. (x.0.now, x.1.now)) result (letters count bytes.now) }
{
    let count = count as usize;
    if bytes.len() < count {
        return None;
    }
    let (front, rest) = bytes.split_at(count);
    if is_text(front) {
        Some((front, rest))
    } else {
        None
    }
}
