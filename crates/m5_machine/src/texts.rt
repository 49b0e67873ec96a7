//! What the instructions make of texts.

ghost use Rattle.std.specs.Prelude.{◌≡◌, All};
ghost use Rattle.m5_region.specs.declared.value.Value.TheVariants.{Text};
ghost use Rattle.m5_region.specs.Region.{Refers, TextOf};
ghost use Rattle.m5_machine.specs.Table.{equal_texts, equal_values, with_object, added, joined_text, decimal_text, GivesFit};

use crate::decimal::{MOST_DIGITS, put_decimal};
use crate::made::Made;
use crate::numbers::equal_ints;
use crate::operand::{int_in, text_at, text_in};
use m5_region::region::Region;
use m5_region::slots::Slots;
use m5_region::value::Value;

/// A new text of these bytes.
pub(crate) fn new_text(region: &mut Region, bytes: &[u8]) -> Made
    ensures made { with_object region.old (TextOf bytes.now) Text ≡ (result, region.new) }
    ensures value { GivesFit region.new.objects result }
{
    match region.add_text(bytes) {
        Some(at) => Made::Gives(Value::Text(at)),
        None => Made::NoRegion,
    }
}

/// A new text of the bytes of two.
pub(crate) fn join(region: &mut Region, slots: &Slots, first: u16, second: u16) -> Made
    requires { All (Refers region.old.objects) slots.now }
    ensures made { added region.old (joined_text region.old.objects slots.now first second) Text
        ≡ (result, region.new) }
    ensures value { GivesFit region.new.objects result }
{
    let (Some(first), Some(second)) = (text_in(slots, first), text_in(slots, second)) else {
        return Made::NoCase;
    };
    match region.add_joined(first, second) {
        Some(at) => Made::Gives(Value::Text(at)),
        None => Made::NoRegion,
    }
}

/// A new text, a number in decimal.
pub(crate) fn print(region: &mut Region, slots: &Slots, slot: u16) -> Made
    ensures made { added region.old (decimal_text slots.now slot) Text ≡ (result, region.new) }
    ensures value { GivesFit region.new.objects result }
{
    let Some(number) = int_in(slots, slot) else {
        return Made::NoCase;
    };
    let mut buffer = [0; MOST_DIGITS];
    let start = put_decimal(&mut buffer, number);
    new_text(region, &buffer[start..])
}

pub(crate) fn equal_texts(region: &Region, slots: &Slots, first: u16, second: u16) -> Option<Value>
    requires { All (Refers region.now.objects) slots.now }
    ensures { result ≡ equal_texts region.now.objects slots.now first second }
{
    let first = text_at(region, slots, first)?;
    let second = text_at(region, slots, second)?;
    Some(Value::Bool(first == second))
}

/// Whether two numbers, or two texts, are equal.
pub(crate) fn equal_values(region: &Region, slots: &Slots, first: u16, second: u16) -> Option<Value>
    requires { All (Refers region.now.objects) slots.now }
    ensures { result ≡ equal_values region.now.objects slots.now first second }
{
    match equal_ints(slots, first, second) {
        Some(value) => Some(value),
        None => equal_texts(region, slots, first, second),
    }
}
