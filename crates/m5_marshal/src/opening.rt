//! The first fields of a content, which say what follows.

ghost use Rattle.std.specs.Prelude.{◌≡◌, length, pos, Some, slice_get, IfOk, IfSome};
ghost use Rattle.m5_message.specs.Numbers.{Gives, small_number};
ghost use Rattle.m5_marshal.specs.code.Finds.{Finds};
ghost use Rattle.m5_message.specs.Reading.{opening_at, label_at, text_at, Whole};
ghost use Rattle.m5_marshal.specs.code.Opened.{opening, others_of, FitsArray};

use crate::field::{flag, letters};
use crate::number::{number, small_number};
use m5_dictionary::dicts::Dicts;
use m5_dictionary::line::TypeLine;
use m5_message::format::Format;
use m5_region::value::Value;

/// The type ids of the fields that follow.
#[derive(Clone, Copy)]
pub enum Others<'d> {
    Nothing,
    One(u32),
    Two(u32, u32),
    Many(&'d [u32]),
}

/// What the first fields say: a text's bytes, or an array's first field and the types of the others.
#[derive(Clone, Copy)]
pub enum Opened<'b, 'd> {
    Whole(&'b [u8]),
    Pair(Others<'d>),
    Parts(Value, Others<'d>),
}

fn text_of(format: Format, bytes: &[u8]) -> Result<(&[u8], &[u8]), usize>
    ensures { Gives (λ x. (Whole x.0.now, x.1.now)) result (text_at format bytes.now) }
{
    let (count, rest) = number(format, bytes).ok_or(bytes.len())?;
    letters(count, rest).ok_or(rest.len())
}

fn label_of<'b, 'd>(
    dicts: &'d Dicts,
    format: Format,
    argument: u32,
    bytes: &'b [u8],
) -> Option<(Opened<'b, 'd>, &'b [u8])>
    ensures is { Finds (λ x. (opening x.0, x.1.now)) result (label_at dicts.now argument (small_number format bytes.now)) }
    ensures fits { IfSome result (λ x. FitsArray x.0) }
{
    let (number, rest) = small_number(format, bytes)?;
    let label = dicts.label(number)?;
    if label.argument() == argument {
        let parts = Opened::Parts(Value::Int(number as i64), Others::Many(label.environment()));
        Some((parts, rest))
    } else {
        None
    }
}

/// The first fields of the content of an object of this type id.
#[tactic(auto, unfolding(m5_message::specs::Reading::opening_at))]
pub(crate) fn open<'b, 'd>(
    dicts: &'d Dicts,
    format: Format,
    id: u32,
    bytes: &'b [u8],
) -> Result<(Opened<'b, 'd>, &'b [u8]), usize>
    ensures is { Gives (λ x. (opening x.0, x.1.now)) result (opening_at dicts.now format id bytes.now) }
    ensures fits { IfOk result (λ x. FitsArray x.0) }
{
    let line = dicts.line(id).ok_or(bytes.len())?;
    match line {
        TypeLine::Text => {
            let (letters, rest) = text_of(format, bytes)?;
            Ok((Opened::Whole(letters), rest))
        }
        TypeLine::Pair(first, second) => Ok((Opened::Pair(Others::Two(first, second)), bytes)),
        TypeLine::Sum(left, right) => {
            let (truth, rest) = flag(bytes).ok_or(bytes.len())?;
            let id = if truth { right } else { left };
            Ok((Opened::Parts(Value::Bool(truth), Others::One(id)), rest))
        }
        TypeLine::List(item) => {
            let (truth, rest) = flag(bytes).ok_or(bytes.len())?;
            let others = if truth {
                Others::Two(item, id)
            } else {
                Others::Nothing
            };
            Ok((Opened::Parts(Value::Bool(truth), others), rest))
        }
        TypeLine::Fun(argument) => label_of(dicts, format, argument, bytes).ok_or(bytes.len()),
        _ => Err(bytes.len()),
    }
}
