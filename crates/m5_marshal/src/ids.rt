//! The type ids of a message.

ghost use Rattle.std.specs.Prelude.{◌≡◌, ◌≤◌, ◌<◌, ◌+◌, ◌*◌, length, Some, slice_get, IfOk};
ghost use Rattle.m5_message.specs.Numbers.{Gives};
ghost use Rattle.m5_marshal.specs.code.Finds.{Finds};
ghost use Rattle.m5_message.specs.Reading.{id_at, ids_at, is_object_line};
ghost use Rattle.m5_marshal.specs.code.Ids.{words};

use crate::number::number32;
use m5_dictionary::dicts::Dicts;
use m5_dictionary::line::is_object;

/// Whether the id is there, and of a type whose values are objects.
pub(crate) fn is_object_id(dicts: &Dicts, id: u32) -> bool
    ensures { result ≡ is_object_line (slice_get dicts.now.types id) }
{
    match dicts.line(id) {
        None => false,
        Some(line) => is_object(line),
    }
}

fn id_of<'b>(dicts: &Dicts, bytes: &'b [u8]) -> Option<(u32, &'b [u8])>
    ensures { Finds (λ x. (x.0, x.1.now)) result (id_at dicts.now bytes.now) }
{
    let (id, rest) = number32(bytes)?;
    if is_object_id(dicts, id) {
        Some((id, rest))
    } else {
        None
    }
}

/// The type ids, as the bytes in which each stands at its place, and the bytes behind them.
pub(crate) fn read_ids<'b>(
    dicts: &Dicts,
    count: u32,
    bytes: &'b [u8],
) -> Result<(&'b [u8], &'b [u8]), usize>
    ensures { Gives (λ x. (words x.0.now, x.1.now)) result (ids_at dicts.now count bytes.now) }
{
    let mut rest = bytes;
    for _ in 0..count {
        match id_of(dicts, rest) {
            Some((_, after)) => rest = after,
            None => return Err(rest.len()),
        }
    }
    Ok(bytes.split_at(bytes.len() - rest.len()))
}
