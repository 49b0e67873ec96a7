//! What the instructions make of arrays.

ghost use Rattle.std.specs.Prelude.{◌≡◌, ◌+◌, ◌<◌, ◌^◌, ◌∷◌, [], ◌++◌, length, map, take, replicate, slice_get, Some, IfSome, All};
ghost use Rattle.std.specs.List.{list_all};
ghost use Rattle.m5_region.specs.declared.value.Value.TheVariants.{Null, Array};
ghost use Rattle.m5_region.specs.Region.{ArrayOf, Refers, field_of};
ghost use Rattle.m5_machine.specs.Table.{part, is_filled, value_at, array_of, added, GivesFit};

use crate::made::Made;
use crate::operand::array_in;
use m5_region::region::Region;
use m5_region::slots::Slots;
use m5_region::value::{Ref, Value};

/// A field of the array in a slot.
pub(crate) fn part(region: &Region, slots: &Slots, slot: u16, place: u16) -> Option<Value>
    requires { All (Refers region.now.objects) slots.now }
    ensures part { result ≡ part region.now.objects slots.now slot place }
    ensures refers { IfSome result (Refers region.now.objects) }
{
    let at = array_in(slots, slot)?;
    if (place as u32) < region.fields(at) {
        return Some(region.field(at, place as u32));
    }
    None
}

/// Whether each of these slots is filled.
fn all_filled(slots: &Slots, operands: &[u16]) -> bool
    ensures { result ≡ list_all (is_filled slots.now) operands.now }
{
    operands
        .iter()
        .all(|slot| slots.get(*slot as u32).is_some())
}

/// Sets the fields of the newest object, an array of nulls, to the values of these slots.
fn fill_fields(region: &mut Region, slots: &Slots, operands: &[u16], at: Ref)
    requires newest { at.0 + 1 ≡ length region.old.objects }
    requires nulls { slice_get region.old.objects at.0
        ≡ Some (ArrayOf (replicate (length operands.now) Null)) }
    requires count { length operands.now < 2 ^ 16 }
    requires refer { All (Refers (take at.0 region.old.objects)) slots.now }
    ensures objects { region.new.objects
        ≡ take at.0 region.old.objects ++ ArrayOf (map (value_at slots.now) operands.now) ∷ [] }
    ensures left { region.new.left ≡ region.old.left }
{
    for place in 0..operands.len() {
        match slots.get(operands[place] as u32) {
            Some(value) => region.fill(at, place as u32, value),
            None => {}
        }
    }
}

/// A new array of the values of these slots.
pub(crate) fn new_array(region: &mut Region, slots: &Slots, operands: &[u16]) -> Made
    requires refer { All (Refers region.old.objects) slots.now }
    requires count { (0 < length operands.now) × (length operands.now < 2 ^ 16) }
    ensures made { added region.old (array_of slots.now operands.now) Array ≡ (result, region.new) }
    ensures value { GivesFit region.new.objects result }
{
    if !all_filled(slots, operands) {
        return Made::NoCase;
    }
    let Some(at) = region.add_nulls(operands.len() as u32) else {
        return Made::NoRegion;
    };
    fill_fields(region, slots, operands, at);
    Made::Gives(Value::Array(at))
}
