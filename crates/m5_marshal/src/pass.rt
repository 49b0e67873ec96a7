//! Reading on without adding.

ghost use Rattle.std.specs.Prelude.{◌≡◌, ◌≤◌, ◌<◌, ◌+◌, ◌*◌, ◌^◌, length, Some, slice_get, drop, IfOk};
ghost use Rattle.m5_message.specs.Numbers.{Gives};
ghost use Rattle.m5_marshal.specs.code.Opened.{others_of};
ghost use Rattle.m5_message.specs.Reading.{values_at, content_at, contents_at};
ghost use Rattle.m5_marshal.specs.code.Ids.{words};
ghost use Rattle.m5_marshal.specs.code.Adding.{rest_of};

use crate::field::value_of;
use crate::opening::{Opened, Others, open};
use m5_dictionary::dicts::Dicts;
use m5_message::format::Format;

/// How many type ids there are.
pub(crate) fn count_of(others: Others) -> usize
    ensures { result ≡ length (others_of others.entry) }
{
    match others {
        Others::Nothing => 0,
        Others::One(_) => 1,
        Others::Two(_, _) => 2,
        Others::Many(ids) => ids.len(),
    }
}

/// One of the type ids.
pub(crate) fn other_at(others: Others, place: usize) -> u32
    requires { place < length (others_of others) }
    ensures { slice_get (others_of others.entry) place ≡ Some result }
{
    match others {
        Others::Nothing => 0,
        Others::One(id) => id,
        Others::Two(first, second) => { if place == 0 { first } else { second } }
        Others::Many(ids) => ids[place],
    }
}

/// Passes over values of these types.
pub(crate) fn pass_values<'b>(
    dicts: &Dicts,
    format: Format,
    ids: &[u8],
    own: u32,
    others: Others,
    bytes: &'b [u8],
) -> Result<&'b [u8], usize>
    ensures { Gives (λ x. x.now) result (rest_of (values_at dicts.now format (words ids.now) own (others_of others.entry) bytes.now)) }
{
    let mut rest = bytes;
    let count = count_of(others);
    for place in 0..count {
        let id = other_at(others, place);
        match value_of(dicts, format, ids, own, id, rest) {
            Ok((_, after)) => rest = after,
            Err(left) => return Err(left),
        }
    }
    Ok(rest)
}

/// Passes over the content of an object of this type id.
#[tactic(auto, unfolding(m5_message::specs::Reading::content_at))]
pub(crate) fn pass_content<'b>(
    dicts: &Dicts,
    format: Format,
    ids: &[u8],
    own: u32,
    id: u32,
    bytes: &'b [u8],
) -> Result<&'b [u8], usize>
    ensures { Gives (λ x. x.now) result (rest_of (content_at dicts.now format (words ids.now) own id bytes.now)) }
{
    let (opened, rest) = open(dicts, format, id, bytes)?;
    match opened {
        Opened::Whole(_) => Ok(rest),
        Opened::Pair(others) => pass_values(dicts, format, ids, own, others, rest),
        Opened::Parts(_, others) => pass_values(dicts, format, ids, own, others, rest),
    }
}
