//! What the primitives take.

ghost use Rattle.std.specs.Prelude.{◌≡◌, All, IfSome};
ghost use Rattle.m5_region.specs.Region.{Refers};
ghost use Rattle.m5_machine.specs.Primitive.{shape_of, two_parts, is_text, takes};
ghost use Rattle.m5_machine.specs.Closure.{is_closure};

use crate::blocks::Blocks;
use crate::closure::entry;
use m5_region::region::Region;
use m5_region::value::Value;

/// What a primitive's argument is.
#[derive(Clone, Copy, PartialEq, Eq, Debug)]
pub enum Shape {
    OneText,
    /// An array of two texts.
    TwoTexts,
    /// An array of a text and a closure.
    TextAndHandler,
    /// No primitive has the code.
    NoShape,
}

/// What the primitive of a code takes.
fn shape_of(primitive: u8) -> Shape
    ensures { result ≡ shape_of primitive }
{
    match primitive {
        0 => Shape::OneText,
        1 => Shape::TwoTexts,
        2 => Shape::OneText,
        3 => Shape::TextAndHandler,
        4 => Shape::OneText,
        5 => Shape::TwoTexts,
        6 => Shape::TextAndHandler,
        7 => Shape::OneText,
        _ => Shape::NoShape,
    }
}

fn is_text(value: Value) -> bool
    ensures { result ≡ is_text value }
{
    matches!(value, Value::Text(_))
}

fn is_closure(code: &Blocks, region: &Region, value: Value) -> bool
    requires { Refers region.now.objects value }
    ensures { result ≡ is_closure code.now region.now.objects value }
{
    entry(code, region, value).is_some()
}

/// The fields of an array of exactly two.
fn two_parts(region: &Region, value: Value) -> Option<(Value, Value)>
    requires { Refers region.now.objects value }
    ensures parts { result ≡ two_parts region.now.objects value }
    ensures refer { IfSome result (λ p.
        (Refers region.now.objects p.0) × (Refers region.now.objects p.1)) }
{
    let Value::Array(at) = value else {
        return None;
    };
    if region.fields(at) != 2 {
        return None;
    }
    Some((region.field(at, 0), region.field(at, 1)))
}

/// Whether a value is of the kind that a primitive takes.
pub(crate) fn takes(code: &Blocks, region: &Region, primitive: u8, value: Value) -> bool
    requires { Refers region.now.objects value }
    ensures { result ≡ takes code.now region.now.objects primitive value }
{
    match shape_of(primitive) {
        Shape::OneText => is_text(value),
        Shape::TwoTexts => match two_parts(region, value) {
            Some((first, second)) => is_text(first) && is_text(second),
            None => false,
        },
        Shape::TextAndHandler => match two_parts(region, value) {
            Some((first, second)) => is_text(first) && is_closure(code, region, second),
            None => false,
        },
        Shape::NoShape => false,
    }
}
