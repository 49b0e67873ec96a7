//! Slots read as what an instruction wants there.

ghost use Rattle.std.specs.Prelude.{◌≡◌, slice_get, Some, None, All, MatchOption};
ghost use Rattle.m5_region.specs.Region.{Refers};
ghost use Rattle.m5_machine.specs.Operand.{bool_in, int_in, array_in, text_in, text_at};

use m5_region::region::Region;
use m5_region::slots::Slots;
use m5_region::value::{Ref, Value};

/// The truth value in a slot.
pub(crate) fn bool_in(slots: &Slots, slot: u16) -> Option<bool>
    ensures { result ≡ bool_in (slice_get slots.now slot) }
{
    match slots.get(slot as u32) {
        Some(Value::Bool(truth)) => Some(truth),
        _ => None,
    }
}

/// The number in a slot.
pub(crate) fn int_in(slots: &Slots, slot: u16) -> Option<i64>
    ensures { result ≡ int_in (slice_get slots.now slot) }
{
    match slots.get(slot as u32) {
        Some(Value::Int(number)) => Some(number),
        _ => None,
    }
}

/// The array in a slot.
pub(crate) fn array_in(slots: &Slots, slot: u16) -> Option<Ref>
    ensures { result ≡ array_in (slice_get slots.now slot) }
{
    match slots.get(slot as u32) {
        Some(Value::Array(at)) => Some(at),
        _ => None,
    }
}

/// The text in a slot.
pub(crate) fn text_in(slots: &Slots, slot: u16) -> Option<Ref>
    ensures { result ≡ text_in (slice_get slots.now slot) }
{
    match slots.get(slot as u32) {
        Some(Value::Text(at)) => Some(at),
        _ => None,
    }
}

/// The bytes of the text in a slot.
pub(crate) fn text_at<'a>(region: &'a Region, slots: &Slots, slot: u16) -> Option<&'a [u8]>
    requires { All (Refers region.now.objects) slots.now }
    ensures { MatchOption result
        (text_at region.now.objects slots.now slot ≡ None)
        (λ bytes. text_at region.now.objects slots.now slot ≡ Some bytes.now) }
{
    let at = text_in(slots, slot)?;
    Some(region.text(at))
}
