//! A message read into a region.

ghost use Rattle.std.specs.Prelude.{◌≡◌, ◌≤◌, ◌<◌, ◌+◌, ◌^◌, length, take, Err, IfOk};
ghost use Rattle.m5_message.specs.Packing.{target};
ghost use Rattle.m5_message.specs.Sharing.{shifted};
ghost use Rattle.m5_message.specs.Message.{body_at, version_at};
ghost use Rattle.m5_marshal.specs.Unpack.{Unpacks, AreThere, StandsAt};
ghost use Rattle.m5_marshal.specs.code.Ids.{words};
ghost use Rattle.m5_marshal.specs.code.Tail.{objects_at, ReadsWhole};
ghost use Rattle.m5_region.specs.Region.{units_in};
ghost use Rattle.m5_region.specs.declared.value.Value.TheVariants.{Array};

use crate::add::shifted;
use crate::contents::add_contents;
use crate::ids::read_ids;
use crate::number::number;
use crate::root::read_tail;
use m5_dictionary::dicts::Dicts;
use m5_message::format::Format;
use m5_region::queue::Ready;
use m5_region::region::Region;
use m5_region::value::{Ref, Value};
use m5_terms::seal::Seal;
use m5_terms::types::World;

/// Why bytes were not unpacked: they do not begin with the seal; they are no message, with the
/// offset of the first bad field; or the message's objects do not fit.
#[derive(Clone, Copy, PartialEq, Eq, Debug)]
pub enum UnpackEnd {
    Unsealed,
    Outside(u64),
    Full,
}

/// The closure and the argument, behind so many objects.
fn ready_behind(base: u32, root: u32, argument: Value) -> Ready
    requires root { base + root < 2 ^ 32 }
    requires argument { base + target argument < 2 ^ 32 }
    ensures code { result.code ≡ Array (record { 0 = base + root }) }
    ensures argument { result.argument ≡ shifted base argument }
{
    Ready {
        code: Value::Array(Ref(base + root)),
        argument: shifted(base, argument),
    }
}

/// Reads a message from its contents on.
fn read_objects(
    region: &mut Region,
    dicts: &Dicts,
    world: World,
    format: Format,
    ids: &[u8],
    count: u32,
    contents: &[u8],
) -> Result<Option<Ready>, usize>
    requires { count ≡ length (words ids.now) }
    ensures { ReadsWhole dicts.now world region.old (objects_at dicts.now world format count (words ids.now) contents.now) result region.new }
{
    let base = region.count();
    match add_contents(region, dicts, format, ids, count, contents) {
        Err(left) => Err(left),
        Ok((rest, true)) => {
            let _ = region.count();
            match read_tail(dicts, world, format, ids, count, contents, rest) {
                Err(left) => Err(left),
                Ok((root, argument)) => Ok(Some(ready_behind(base, root, argument))),
            }
        }
        Ok((rest, false)) => {
            match read_tail(dicts, world, format, ids, count, contents, rest) {
                Err(left) => Err(left),
                Ok(_) => Ok(None),
            }
        }
    }
}

/// Reads a message from the number of its objects on.
fn read_body(
    region: &mut Region,
    dicts: &Dicts,
    world: World,
    format: Format,
    bytes: &[u8],
) -> Result<Option<Ready>, usize>
    ensures { ReadsWhole dicts.now world region.old (body_at dicts.now world format bytes.now) result region.new }
{
    match number(format, bytes) {
        None => Err(bytes.len()),
        Some((count, rest)) => match read_ids(dicts, count, rest) {
            Err(left) => Err(left),
            Ok((ids, contents)) => {
                read_objects(region, dicts, world, format, ids, count, contents)
            }
        },
    }
}

/// Reads a message behind its seal. The ninth byte of the first format is the high byte of the
/// number of objects, which is 00.
fn read_version(
    region: &mut Region,
    dicts: &Dicts,
    world: World,
    bytes: &[u8],
) -> Result<Option<Ready>, usize>
    ensures { ReadsWhole dicts.now world region.old (version_at dicts.now world bytes.now) result region.new }
{
    if bytes.is_empty() {
        return Err(0);
    }
    let version = bytes[0];
    if version == 0 {
        return read_body(region, dicts, world, Format::First, bytes);
    }
    if version == 2 {
        return read_body(region, dicts, world, Format::Second, &bytes[1..]);
    }
    Err(bytes.len())
}

/// Takes away what a refused message added, all but the first objects.
fn refused(region: &mut Region, count: u32, end: UnpackEnd) -> Result<Ready, UnpackEnd>
    ensures end { result ≡ Err end }
    ensures objects { region.new.objects ≡ take count region.old.objects }
    ensures left { region.new.left + units_in region.new.objects ≡ region.old.left + units_in region.old.objects }
{
    region.cut(count);
    Err(end)
}

/// Adds the objects of a message to a region, and answers the thread for which its bytes stand at
/// this world. Bytes that are no message, or whose objects do not fit, are refused, and the region
/// is as before.
pub fn unpack(
    region: &mut Region,
    dicts: &Dicts,
    world: World,
    seal: &Seal,
    bytes: &[u8],
) -> Result<Ready, UnpackEnd>
    ensures is { Unpacks dicts.now world seal.now.0 bytes.now region.old result region.new }
    ensures refers { IfOk result (AreThere region.new.objects) }
    ensures stands { IfOk result (StandsAt dicts.now world region.new.objects) }
{
    if !bytes.starts_with(&seal.0) {
        return Err(UnpackEnd::Unsealed);
    }
    let count = region.count();
    match read_version(region, dicts, world, &bytes[8..]) {
        Ok(Some(ready)) => Ok(ready),
        Ok(None) => refused(region, count, UnpackEnd::Full),
        Err(left) => {
            let offset = bytes.len().saturating_sub(left) as u64;
            refused(region, count, UnpackEnd::Outside(offset))
        }
    }
}
