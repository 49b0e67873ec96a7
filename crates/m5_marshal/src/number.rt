//! The numbers of a message.

ghost use Rattle.std.specs.Prelude.{◌≡◌, ◌≤◌, ◌<◌, ◌^◌, length, IfSome, Some, None};
ghost use Rattle.std.specs.Int.{w16, w32, w64};
ghost use Rattle.m5_message.specs.Numbers.{wide, groups, short, number, small_number, older};
ghost use Rattle.m5_marshal.specs.code.Finds.{Finds};

use m5_message::format::Format;

fn number16(bytes: &[u8]) -> Option<(u16, &[u8])>
    ensures { Finds (λ x. (x.0, x.1.now)) result (wide w16 bytes.now) }
{
    if bytes.len() < 2 {
        return None;
    }
    let (front, rest) = bytes.split_at(2);
    Some((u16::from_be_bytes([front[0], front[1]]), rest))
}

pub(crate) fn number32(bytes: &[u8]) -> Option<(u32, &[u8])>
    ensures { Finds (λ x. (x.0, x.1.now)) result (wide w32 bytes.now) }
{
    if bytes.len() < 4 {
        return None;
    }
    let (front, rest) = bytes.split_at(4);
    let number = u32::from_be_bytes([front[0], front[1], front[2], front[3]]);
    Some((number, rest))
}

pub(crate) fn number64(bytes: &[u8]) -> Option<(u64, &[u8])>
    ensures { Finds (λ x. (x.0, x.1.now)) result (wide w64 bytes.now) }
{
    if bytes.len() < 8 {
        return None;
    }
    let (front, rest) = bytes.split_at(8);
    let number = u64::from_be_bytes([
        front[0], front[1], front[2], front[3], front[4], front[5], front[6], front[7],
    ]);
    Some((number, rest))
}

/// The bytes of a short number, of at most so many.
#[tactic(auto, unfolding(m5_message::specs::Numbers::groups))]
fn groups(most: u8, bytes: &[u8]) -> Option<(u32, &[u8])>
    ensures { Finds (λ x. (x.0, x.1.now)) result (groups most bytes.now) }
{
    if most == 0 {
        return None;
    }
    match bytes {
        [] => None,
        [b, rest @ ..] => {
            if *b < 128 {
                return Some((*b as u32, rest));
            }
            let (high, rest) = groups(most - 1, rest)?;
            if high == 0 {
                return None;
            }
            if high < 0x200_0000 {
                Some((*b as u32 - 128 + 128 * high, rest))
            } else {
                None
            }
        }
    }
}

#[tactic(auto, unfolding(m5_message::specs::Numbers::short))]
pub(crate) fn short(bytes: &[u8]) -> Option<(u32, &[u8])>
    ensures { Finds (λ x. (x.0, x.1.now)) result (short bytes.now) }
{
    groups(5, bytes)
}

/// A count, a length or a place.
pub(crate) fn number(format: Format, bytes: &[u8]) -> Option<(u32, &[u8])>
    ensures { Finds (λ x. (x.0, x.1.now)) result (number format bytes.now) }
{
    match format {
        Format::First => number32(bytes),
        Format::Second => short(bytes),
    }
}

/// A label.
pub(crate) fn small_number(format: Format, bytes: &[u8]) -> Option<(u16, &[u8])>
    ensures { Finds (λ x. (x.0, x.1.now)) result (small_number format bytes.now) }
{
    match format {
        Format::First => number16(bytes),
        Format::Second => {
            let (n, rest) = short(bytes)?;
            if n < 0x1_0000 {
                Some((n as u16, rest))
            } else {
                None
            }
        }
    }
}

/// The older object that a reference is to.
pub(crate) fn older(format: Format, own: u32, bytes: &[u8]) -> Option<(u32, &[u8])>
    ensures { Finds (λ x. (x.0, x.1.now)) result (older format own bytes.now) }
{
    match format {
        Format::First => {
            let (j, rest) = number32(bytes)?;
            if j < own { Some((j, rest)) } else { None }
        }
        Format::Second => {
            let (d, rest) = short(bytes)?;
            if d < 1 {
                return None;
            }
            if own < d {
                return None;
            }
            Some((own - d, rest))
        }
    }
}
