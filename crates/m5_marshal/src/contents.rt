//! The contents of a message, read one after the other.

ghost use Rattle.std.specs.Prelude.{◌≡◌, ◌≤◌, ◌<◌, ◌+◌, ◌-◌, ◌^◌, length, IfOk, false};
ghost use Rattle.m5_message.specs.Numbers.{Gives};
ghost use Rattle.m5_message.specs.Reading.{contents_at};
ghost use Rattle.m5_marshal.specs.code.Ids.{words};
ghost use Rattle.m5_marshal.specs.code.Adding.{rest_of, span, AddedAll};

use crate::add::add_content;
use crate::field::id_there;
use crate::pass::pass_content;
use m5_dictionary::dicts::Dicts;
use m5_message::format::Format;
use m5_region::region::Region;

/// Passes over the contents of the objects from a number up to another.
pub(crate) fn pass_contents<'b>(
    dicts: &Dicts,
    format: Format,
    ids: &[u8],
    from: u32,
    until: u32,
    bytes: &'b [u8],
) -> Result<&'b [u8], usize>
    requires order { from ≤ until }
    requires there { until ≤ length (words ids.now) }
    ensures { Gives (λ x. x.now) result (rest_of (contents_at dicts.now format (words ids.now) from (span from until (words ids.now)) bytes.now)) }
{
    let mut rest = bytes;
    for own in from..until {
        let id = id_there(ids, own);
        match pass_content(dicts, format, ids, own, id, rest) {
            Ok(after) => rest = after,
            Err(left) => return Err(left),
        }
    }
    Ok(rest)
}

/// Passes over the contents behind an object that did not fit.
fn pass_others<'b>(
    dicts: &Dicts,
    format: Format,
    ids: &[u8],
    from: u32,
    until: u32,
    bytes: &'b [u8],
) -> Result<(&'b [u8], bool), usize>
    requires order { from ≤ until }
    requires there { until ≤ length (words ids.now) }
    ensures is { Gives (λ x. x.0.now) result (rest_of (contents_at dicts.now format (words ids.now) from (span from until (words ids.now)) bytes.now)) }
    ensures full { IfOk result (λ x. x.1 ≡ false) }
{
    match pass_contents(dicts, format, ids, from, until, bytes) {
        Ok(rest) => Ok((rest, false)),
        Err(left) => Err(left),
    }
}

/// Adds the objects while their contents are read. Behind the first that does not fit it reads on
/// without adding.
pub(crate) fn add_contents<'b>(
    region: &mut Region,
    dicts: &Dicts,
    format: Format,
    ids: &[u8],
    count: u32,
    bytes: &'b [u8],
) -> Result<(&'b [u8], bool), usize>
    requires { count ≡ length (words ids.now) }
    ensures { AddedAll (λ x. x.now) dicts.now (words ids.now) region.old (contents_at dicts.now format (words ids.now) 0 (words ids.now) bytes.now) result region.new }
{
    let mut rest = bytes;
    for own in 0..count {
        let _ = region.count();
        let id = id_there(ids, own);
        match add_content(region, dicts, format, ids, own, id, rest) {
            Err(left) => return Err(left),
            Ok((after, false)) => return pass_others(dicts, format, ids, own + 1, count, after),
            Ok((after, true)) => rest = after,
        }
    }
    Ok((rest, true))
}
