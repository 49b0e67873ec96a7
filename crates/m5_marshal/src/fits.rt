//! Whether objects of a region are of the types at which they are reached.

ghost use Rattle.std.specs.Prelude.{◌≡◌, ◌↔◌, ◌≤◌, ◌<◌, ◌+◌, ◌^◌, ℕ, length, pos, slice_get, Some, None, IsTrue, IsSome, IsSomeAnd, IfSome, IfNone};
ghost use Rattle.m5_region.specs.declared.value.Value.TheVariants as values;
ghost use Rattle.m5_region.specs.Region.{fields_of};
ghost use Rattle.m5_message.specs.Reading.{Opening, entered};
ghost use Rattle.m5_message.specs.Spelling.{IsOf, AreOf};
ghost use Rattle.m5_message.specs.Packing.{IsFit};
ghost use Rattle.m5_marshal.specs.code.Opened.{opening, others_of};
ghost use Rattle.m5_marshal.specs.code.Keys.{reached, OpensAs, HasFields, values_behind};
ghost use Rattle.m5_marshal.specs.code.Fits.{Within, IsKinded, OpensNot};

use crate::key::Key;
use crate::opening::{Opened, Others};
use crate::pass::{count_of, other_at};
use m5_dictionary::dicts::Dicts;
use m5_dictionary::line::{TypeLine, code_of_world};
use m5_region::region::Region;
use m5_region::value::{Ref, Value};
use m5_terms::text::is_text;

/// Whether a value refers to a text of a smaller number.
fn is_text_before(older: u32, value: Value) -> bool
    ensures { IsTrue result ↔ ((j : ℕ) × (j < older) × (value ≡ values.Text (record { 0 = j }))) }
{
    match value {
        Value::Text(at) => at.0 < older,
        _ => false,
    }
}

/// Whether a value refers to an array of a smaller number.
fn is_array_before(older: u32, value: Value) -> bool
    ensures { IsTrue result ↔ ((j : ℕ) × (j < older) × (value ≡ values.Array (record { 0 = j }))) }
{
    match value {
        Value::Array(at) => at.0 < older,
        _ => false,
    }
}

/// Whether a value is a cell's place.
fn is_place(value: Value) -> bool
    ensures { IsTrue result ↔ ((n : ℕ) × (n < 4096) × (value ≡ values.Int (pos n))) }
{
    match value {
        Value::Int(n) => 0 <= n && n < 4096,
        _ => false,
    }
}

/// Whether a value is this number.
fn is_number(number: u8, value: Value) -> bool
    ensures { IsTrue result ↔ (value ≡ values.Int (pos number)) }
{
    match value {
        Value::Int(n) => n == number as i64,
        _ => false,
    }
}

/// Whether a value is one of a type, where it may refer to objects of a smaller number.
pub(crate) fn is_of(dicts: &Dicts, older: u32, id: u32, value: Value) -> bool
    ensures { IsTrue result ↔ IsOf (Within dicts.now older) id (slice_get dicts.now.types id) value }
{
    match dicts.line(id) {
        None => false,
        Some(TypeLine::Unit) => matches!(value, Value::Null),
        Some(TypeLine::Bool) => matches!(value, Value::Bool(_)),
        Some(TypeLine::Int) => matches!(value, Value::Int(_)),
        Some(TypeLine::Cell) => is_place(value),
        Some(TypeLine::Addr(world)) => is_number(code_of_world(world), value),
        Some(TypeLine::Text) => is_text_before(older, value),
        Some(TypeLine::Pair(_, _)) => is_array_before(older, value),
        Some(TypeLine::Sum(_, _)) => is_array_before(older, value),
        Some(TypeLine::List(_)) => is_array_before(older, value),
        Some(TypeLine::Fun(_)) => is_array_before(older, value),
    }
}

/// Whether the fields of an array behind its first ones are of these types.
fn are_of(region: &Region, dicts: &Dicts, at: Ref, first: u32, others: Others) -> bool
    requires { HasFields region.now.objects at.0 first }
    ensures { IsTrue result ↔ AreOf dicts.now (Within dicts.now at.0) (others_of others.entry) (values_behind region.now.objects at.0 first) }
{
    let count = count_of(others);
    if count != (region.fields(at) - first) as usize {
        return false;
    }
    for place in 0..count {
        let id = other_at(others, place);
        let value = region.field(at, first + place as u32);
        if !is_of(dicts, at.0, id, value) {
            return false;
        }
    }
    true
}

/// A closure of the label of this number, where it takes this argument.
fn label_opened<'r, 'd>(dicts: &'d Dicts, argument: u32, number: i64) -> Option<Opened<'r, 'd>>
    ensures some { IfSome result (λ o. (l : ℕ) × (number ≡ pos l) × (entered argument l (slice_get dicts.now.labels l) ≡ Some (opening o))) }
    ensures none { IfNone result ((l : ℕ) (p : Opening) → number ≡ pos l → entered argument l (slice_get dicts.now.labels l) ≡ Some p → ⊥) }
{
    dicts.are_dictionaries();
    if number < 0 || 0xffff < number {
        return None;
    }
    match dicts.label(number as u16) {
        None => None,
        Some(entrance) => {
            if entrance.argument() == argument {
                Some(Opened::Parts(Value::Int(number), Others::Many(entrance.environment())))
            } else {
                None
            }
        }
    }
}

/// How an object is one of a type, by its first field; an array where the type's values are arrays,
/// and a text where they are texts.
fn opened_if<'r, 'd>(region: &'r Region, dicts: &'d Dicts, key: Key) -> Option<Opened<'r, 'd>>
    requires { IsKinded dicts.now region.now.objects (reached key) }
    ensures some { IfSome result (OpensAs dicts.now region.now.objects key) }
    ensures none { IfNone result (OpensNot dicts.now region.now.objects (reached key)) }
{
    region.refers_to_older();
    let at = Ref(key.at);
    match dicts.line(key.id) {
        Some(TypeLine::Text) => Some(Opened::Whole(region.text(at))),
        Some(TypeLine::Pair(first, second)) => Some(Opened::Pair(Others::Two(first, second))),
        Some(TypeLine::Sum(left, right)) => match region.field(at, 0) {
            Value::Bool(truth) => {
                let id = if truth { right } else { left };
                Some(Opened::Parts(Value::Bool(truth), Others::One(id)))
            }
            _ => None,
        },
        Some(TypeLine::List(item)) => match region.field(at, 0) {
            Value::Bool(true) => Some(Opened::Parts(Value::Bool(true), Others::Two(item, key.id))),
            Value::Bool(false) => Some(Opened::Parts(Value::Bool(false), Others::Nothing)),
            _ => None,
        },
        Some(TypeLine::Fun(argument)) => match region.field(at, 0) {
            Value::Int(number) => label_opened(dicts, argument, number),
            _ => None,
        },
        _ => None,
    }
}

/// Whether an object is one of a type at its first level.
pub(crate) fn is_fit(region: &Region, dicts: &Dicts, key: Key) -> bool
    requires { IsKinded dicts.now region.now.objects (reached key) }
    ensures { IsTrue result ↔ IsFit dicts.now region.now.objects (reached key) (slice_get region.now.objects key.at) }
{
    region.refers_to_older();
    match opened_if(region, dicts, key) {
        None => false,
        Some(Opened::Whole(bytes)) => is_text(bytes),
        Some(Opened::Pair(others)) => are_of(region, dicts, Ref(key.at), 0, others),
        Some(Opened::Parts(_, others)) => are_of(region, dicts, Ref(key.at), 1, others),
    }
}
