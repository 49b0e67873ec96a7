//! The root of a message: its closure, and the argument.

ghost use Rattle.std.specs.Prelude.{◌≡◌, ◌<◌, ℕ, List, Ok, length, slice_get, Some};
ghost use Rattle.m5_region.specs.Region.{Object};
ghost use Rattle.m5_message.specs.Numbers.{Gives, older};
ghost use Rattle.m5_message.specs.Reading.{contents_at};
ghost use Rattle.m5_message.specs.Message.{argument_of, line_at, label_in, root_of, as_root};
ghost use Rattle.m5_marshal.specs.code.Finds.{Finds};
ghost use Rattle.m5_marshal.specs.code.Ids.{words};
ghost use Rattle.m5_marshal.specs.code.Tail.{tail_at};

use crate::contents::pass_contents;
use crate::field::{id_there, value_of};
use crate::number::{older, small_number};
use m5_dictionary::dicts::Dicts;
use m5_dictionary::line::TypeLine;
use m5_message::format::Format;
use m5_region::value::Value;
use m5_terms::types::World;

/// The type id of a function's argument.
fn argument_of(line: Option<TypeLine>) -> Option<u32>
    ensures { result ≡ argument_of line }
{
    match line {
        Some(TypeLine::Fun(argument)) => Some(argument),
        _ => None,
    }
}

/// The label of a closure by the closure's number, read from its content.
fn label_of(dicts: &Dicts, format: Format, ids: &[u8], root: u32, contents: &[u8]) -> Option<u16>
    requires { root < length (words ids.now) }
    ensures { (os : List Object) (rest : List ℕ) (i : ℕ) → contents_at dicts.now format (words ids.now) 0 (words ids.now) contents.now ≡ Ok (os, rest) → argument_of (line_at dicts.now (slice_get (words ids.now) root)) ≡ Some i → label_in (slice_get os root) ≡ result }
{
    match pass_contents(dicts, format, ids, 0, root, contents) {
        Err(_) => None,
        Ok(rest) => match small_number(format, rest) {
            None => None,
            Some((label, _)) => Some(label),
        },
    }
}

/// The type id of the argument, where the object can be a root at this world.
fn root_argument(
    dicts: &Dicts,
    world: World,
    format: Format,
    ids: &[u8],
    root: u32,
    contents: &[u8],
) -> Option<u32>
    requires { root < length (words ids.now) }
    ensures { (os : List Object) (rest : List ℕ) → contents_at dicts.now format (words ids.now) 0 (words ids.now) contents.now ≡ Ok (os, rest) → root_of dicts.now world (words ids.now) os root ≡ result }
{
    let id = id_there(ids, root);
    match argument_of(dicts.line(id)) {
        None => None,
        Some(argument) => match label_of(dicts, format, ids, root, contents) {
            None => None,
            Some(label) => match dicts.label(label) {
                None => None,
                Some(entrance) => {
                    if entrance.stands_at(world) {
                        Some(argument)
                    } else {
                        None
                    }
                }
            },
        },
    }
}

/// The number of the root and the type id of its argument.
fn read_root<'b>(
    dicts: &Dicts,
    world: World,
    format: Format,
    ids: &[u8],
    count: u32,
    contents: &[u8],
    bytes: &'b [u8],
) -> Option<(u32, u32, &'b [u8])>
    requires { count ≡ length (words ids.now) }
    ensures { (os : List Object) (rest : List ℕ) → contents_at dicts.now format (words ids.now) 0 (words ids.now) contents.now ≡ Ok (os, rest) → Finds (λ x. ((x.0, x.1), x.2.now)) result (as_root dicts.now world (words ids.now) os (older format count bytes.now)) }
{
    match older(format, count, bytes) {
        None => None,
        Some((root, rest)) => match root_argument(dicts, world, format, ids, root, contents) {
            None => None,
            Some(argument) => Some((root, argument, rest)),
        },
    }
}

/// Reads the root and its argument, which end the message.
pub(crate) fn read_tail(
    dicts: &Dicts,
    world: World,
    format: Format,
    ids: &[u8],
    count: u32,
    contents: &[u8],
    bytes: &[u8],
) -> Result<(u32, Value), usize>
    requires { count ≡ length (words ids.now) }
    ensures { (os : List Object) → contents_at dicts.now format (words ids.now) 0 (words ids.now) contents.now ≡ Ok (os, bytes.now) → Gives (λ x. (x.0, x.1)) result (tail_at dicts.now world format count (words ids.now) os bytes.now) }
{
    match read_root(dicts, world, format, ids, count, contents, bytes) {
        None => Err(bytes.len()),
        Some((root, argument, rest)) => {
            match value_of(dicts, format, ids, count, argument, rest) {
                Err(left) => Err(left),
                Ok((value, end)) => {
                    if end.is_empty() {
                        Ok((root, value))
                    } else {
                        Err(end.len())
                    }
                }
            }
        }
    }
}
