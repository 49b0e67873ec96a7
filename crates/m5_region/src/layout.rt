//! Objects as units: a header, and then fields or the bytes of a text.

ghost use Rattle.std.specs.Prelude.{◌≡◌, ◌+◌, ◌*◌, ◌/◌, ◌<◌, ◌≤◌, ◌^◌, ◌∷◌, [], ◌++◌, length, take, drop, replicate, All, slice_range};
ghost use Rattle.std.specs.Vec.{vec_len, vec_capacity};
ghost use Rattle.m5_region.specs.declared.value.Value.TheVariants.{Null};
ghost use Rattle.m5_region.specs.Units.{HasNumber};
ghost use Rattle.m5_region.specs.Region.{ArrayOf, TextOf, units_of};
ghost use Rattle.m5_region.specs.Layout.{kinds_of, content_of};
ghost use Rattle.m5_region.specs.code.Stored.{two_ranges};

use crate::units::{kind_of, number_of, put_unit};
use crate::value::Value;

/// Adds the units of an array, for which there is room.
pub(crate) fn put_array(kinds: &mut Vec<u8>, content: &mut Vec<u8>, fields: &[Value])
    requires kinds { vec_len kinds.old + units_of (ArrayOf fields.now) ≤ vec_capacity kinds.old }
    requires content { vec_len content.old + 8 * units_of (ArrayOf fields.now) ≤ vec_capacity content.old }
    ensures kinds { kinds.new.items ≡ kinds.old.items ++ kinds_of (ArrayOf fields.now) }
    ensures content { content.new.items ≡ content.old.items ++ content_of (ArrayOf fields.now) }
    ensures numbers { All HasNumber fields.now }
    ensures kinds_room { vec_capacity kinds.old ≤ vec_capacity kinds.new }
    ensures content_room { vec_capacity content.old ≤ vec_capacity content.new }
{
    put_unit(kinds, content, 5, fields.len() as u64);
    for value in fields {
        put_unit(kinds, content, kind_of(*value), number_of(*value));
    }
}

/// Adds a byte some times, for which there is room.
fn put_copies(list: &mut Vec<u8>, byte: u8, count: usize)
    requires { vec_len list.old + count ≤ vec_capacity list.old }
    ensures items { list.new.items ≡ list.old.items ++ replicate count byte }
    ensures len { vec_len list.new ≡ vec_len list.old + count }
    ensures room { vec_capacity list.old ≤ vec_capacity list.new }
{
    for _ in 0..count {
        list.push_reserved(byte);
    }
}

/// Adds the units of an array of nulls, for which there is room.
pub(crate) fn put_nulls(kinds: &mut Vec<u8>, content: &mut Vec<u8>, count: usize)
    requires kinds { vec_len kinds.old + (count + 1) ≤ vec_capacity kinds.old }
    requires content { vec_len content.old + 8 * (count + 1) ≤ vec_capacity content.old }
    ensures kinds { kinds.new.items ≡ kinds.old.items ++ kinds_of (ArrayOf (replicate count Null)) }
    ensures content { content.new.items ≡ content.old.items ++ content_of (ArrayOf (replicate count Null)) }
    ensures kinds_room { vec_capacity kinds.old ≤ vec_capacity kinds.new }
    ensures content_room { vec_capacity content.old ≤ vec_capacity content.new }
{
    put_unit(kinds, content, 5, count as u64);
    put_copies(kinds, 0, count);
    put_copies(content, 0, 8 * count);
}

/// Adds the units of a text, for which there is room.
pub(crate) fn put_text(kinds: &mut Vec<u8>, content: &mut Vec<u8>, bytes: &[u8])
    requires kinds { vec_len kinds.old + units_of (TextOf bytes.now) ≤ vec_capacity kinds.old }
    requires content { vec_len content.old + 8 * units_of (TextOf bytes.now) ≤ vec_capacity content.old }
    ensures kinds { kinds.new.items ≡ kinds.old.items ++ kinds_of (TextOf bytes.now) }
    ensures content { content.new.items ≡ content.old.items ++ content_of (TextOf bytes.now) }
    ensures kinds_room { vec_capacity kinds.old ≤ vec_capacity kinds.new }
    ensures content_room { vec_capacity content.old ≤ vec_capacity content.new }
{
    let units = (bytes.len() + 7) / 8;
    put_unit(kinds, content, 6, bytes.len() as u64);
    put_copies(kinds, 7, units);
    put_bytes(content, bytes);
    put_copies(content, 0, 8 * units - bytes.len());
}

/// Adds bytes, for which there is room.
fn put_bytes(list: &mut Vec<u8>, bytes: &[u8])
    requires { vec_len list.old + length bytes.now ≤ vec_capacity list.old }
    ensures items { list.new.items ≡ list.old.items ++ bytes.now }
    ensures len { vec_len list.new ≡ vec_len list.old + length bytes.now }
    ensures room { vec_capacity list.old ≤ vec_capacity list.new }
{
    let _ = list.extend_from_slice(bytes);
}

/// Adds bytes that stand in the list, for which there is room.
fn put_again(list: &mut Vec<u8>, from: usize, len: usize)
    requires within { from + len ≤ vec_len list.old }
    requires room { vec_len list.old + len ≤ vec_capacity list.old }
    ensures items { list.new.items ≡ list.old.items ++ slice_range list.old.items from (from + len) }
    ensures len { vec_len list.new ≡ vec_len list.old + len }
    ensures room { vec_capacity list.old ≤ vec_capacity list.new }
{
    for i in 0..len {
        let byte = list[from + i];
        list.push_reserved(byte);
    }
}

/// Adds the units of two texts' bytes as one text, for which there is room.
pub(crate) fn put_joined(
    kinds: &mut Vec<u8>,
    content: &mut Vec<u8>,
    first: (usize, usize),
    second: (usize, usize),
)
    requires first { first.0 + first.1 ≤ vec_len content.old }
    requires second { second.0 + second.1 ≤ vec_len content.old }
    requires kinds { vec_len kinds.old + (1 + (first.1 + second.1 + 7) / 8) ≤ vec_capacity kinds.old }
    requires content { vec_len content.old + 8 * (1 + (first.1 + second.1 + 7) / 8) ≤ vec_capacity content.old }
    ensures kinds { kinds.new.items
        ≡ kinds.old.items ++ kinds_of (TextOf (two_ranges content.old.items first second)) }
    ensures content { content.new.items
        ≡ content.old.items ++ content_of (TextOf (two_ranges content.old.items first second)) }
    ensures kinds_room { vec_capacity kinds.old ≤ vec_capacity kinds.new }
    ensures content_room { vec_capacity content.old ≤ vec_capacity content.new }
{
    let len = first.1 + second.1;
    let units = (len + 7) / 8;
    put_unit(kinds, content, 6, len as u64);
    put_copies(kinds, 7, units);
    put_again(content, first.0, first.1);
    put_again(content, second.0, second.1);
    put_copies(content, 0, 8 * units - len);
}
