//! Where an object's units stand, and what is read there.

ghost use Rattle.std.specs.Prelude.{◌≡◌, ◌+◌, ◌*◌, ◌<◌, ◌≤◌, ◌∷◌, [], ◌++◌, length, take, slice_index, slice_range, Some, IsSome, IfSome};
ghost use Rattle.m5_region.specs.Region.{Refers, fields_of, field_of, text_of};
ghost use Rattle.m5_region.specs.code.Stored.{Spells, objects_in};

use crate::units::{number_at, value_of};
use crate::value::Value;

/// The unit of a field of an array.
pub(crate) fn field_unit(kinds: &[u8], content: &[u8], starts: &[u32], at: u32, place: u32) -> usize
    requires spells { Spells kinds.now content.now starts.now (objects_in kinds.now content.now) }
    requires there { IsSome (field_of (objects_in kinds.now content.now) at place) }
    ensures unit { result ≡ slice_index starts.now at + 1 + place }
    ensures kinds { result < length kinds.now }
    ensures content { 8 * result + 8 ≤ length content.now }
{
    let _ = kinds;
    let _ = content;
    starts[at as usize] as usize + 1 + place as usize
}

/// A field of an array.
pub(crate) fn field_at(kinds: &[u8], content: &[u8], starts: &[u32], at: u32, place: u32) -> Value
    requires spells { Spells kinds.now content.now starts.now (objects_in kinds.now content.now) }
    requires there { IsSome (field_of (objects_in kinds.now content.now) at place) }
    ensures is { field_of (objects_in kinds.now content.now) at place ≡ Some result }
    ensures older { Refers (take at (objects_in kinds.now content.now)) result }
    ensures refers { Refers (objects_in kinds.now content.now) result }
{
    let unit = field_unit(kinds, content, starts, at, place);
    value_of(kinds[unit], number_at(content, unit))
}

/// How many fields an array has.
pub(crate) fn field_count_at(kinds: &[u8], content: &[u8], starts: &[u32], at: u32) -> u32
    requires spells { Spells kinds.now content.now starts.now (objects_in kinds.now content.now) }
    requires there { IsSome (fields_of (objects_in kinds.now content.now) at) }
    ensures { IfSome (fields_of (objects_in kinds.now content.now) at) (λ vs. result ≡ length vs) }
{
    let _ = kinds;
    number_at(content, starts[at as usize] as usize) as u32
}

/// The first content byte of a text's bytes, and how many they are.
pub(crate) fn text_range(kinds: &[u8], content: &[u8], starts: &[u32], at: u32) -> (usize, usize)
    requires spells { Spells kinds.now content.now starts.now (objects_in kinds.now content.now) }
    requires there { IsSome (text_of (objects_in kinds.now content.now) at) }
    ensures within { result.0 + result.1 ≤ length content.now }
    ensures bytes { text_of (objects_in kinds.now content.now) at
        ≡ Some (slice_range content.now result.0 (result.0 + result.1)) }
{
    let _ = kinds;
    let unit = starts[at as usize] as usize;
    (8 * unit + 8, number_at(content, unit) as usize)
}
