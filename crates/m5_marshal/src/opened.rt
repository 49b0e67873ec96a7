//! An object of a region, as one of a type.

ghost use Rattle.std.specs.Prelude.{◌≡◌, ℕ, pos, Some, slice_get};
ghost use Rattle.m5_message.specs.Reading.{Opening, entered};
ghost use Rattle.m5_marshal.specs.code.Opened.{opening};
ghost use Rattle.m5_message.specs.Packing.{IsFit};
ghost use Rattle.m5_marshal.specs.code.Keys.{reached, OpensAs, IsThere};

use crate::key::Key;
use crate::opening::{Opened, Others};
use m5_dictionary::dicts::Dicts;
use m5_dictionary::line::TypeLine;
use m5_region::region::Region;
use m5_region::value::{Ref, Value};

/// A closure of the label of this number.
fn opened_label<'r, 'd>(dicts: &'d Dicts, number: i64) -> Opened<'r, 'd>
    ensures { (i l : ℕ) (p : Opening) → number ≡ pos l → entered i l (slice_get dicts.now.labels l) ≡ Some p → opening result ≡ p }
{
    dicts.are_dictionaries();
    if number < 0 || 0xffff < number {
        return Opened::Pair(Others::Nothing);
    }
    match dicts.label(number as u16) {
        None => Opened::Pair(Others::Nothing),
        Some(entrance) => Opened::Parts(Value::Int(number), Others::Many(entrance.environment())),
    }
}

fn opened_as<'r, 'd>(region: &'r Region, dicts: &'d Dicts, key: Key) -> Opened<'r, 'd>
    requires { IsFit dicts.now region.now.objects (reached key) (slice_get region.now.objects key.at) }
    ensures { OpensAs dicts.now region.now.objects key result }
{
    let at = Ref(key.at);
    match dicts.line(key.id) {
        Some(TypeLine::Text) => Opened::Whole(region.text(at)),
        Some(TypeLine::Pair(first, second)) => Opened::Pair(Others::Two(first, second)),
        Some(TypeLine::Sum(left, right)) => match region.field(at, 0) {
            Value::Bool(truth) => {
                let id = if truth { right } else { left };
                Opened::Parts(Value::Bool(truth), Others::One(id))
            }
            _ => Opened::Pair(Others::Nothing),
        },
        Some(TypeLine::List(item)) => match region.field(at, 0) {
            Value::Bool(true) => Opened::Parts(Value::Bool(true), Others::Two(item, key.id)),
            Value::Bool(false) => Opened::Parts(Value::Bool(false), Others::Nothing),
            _ => Opened::Pair(Others::Nothing),
        },
        Some(TypeLine::Fun(_)) => match region.field(at, 0) {
            Value::Int(number) => opened_label(dicts, number),
            _ => Opened::Pair(Others::Nothing),
        },
        _ => Opened::Pair(Others::Nothing),
    }
}

/// The first fields of an object that is one of a type, and the types of the others.
pub(crate) fn opened<'r, 'd>(region: &'r Region, dicts: &'d Dicts, key: Key) -> Opened<'r, 'd>
    requires { IsFit dicts.now region.now.objects (reached key) (slice_get region.now.objects key.at) }
    ensures is { OpensAs dicts.now region.now.objects key result }
    ensures there { IsThere region.now.objects key.at result }
{
    region.refers_to_older();
    opened_as(region, dicts, key)
}
