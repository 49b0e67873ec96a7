//! Messages read from lines, and what is said of each.
//!
//! A line is the units that are left in a region with one text, and the bytes of a message in words of hexadecimal digits; a
//! word may have a count and an x before its digits, and then stands so often.

ghost use Rattle.m5_region.specs.Region.{Refers};

use crate::shown::{put_end, put_hex, put_value};
use crate::thread::packed;
use m5_dictionary::dicts::Dicts;
use m5_marshal::unpack;
use m5_region::limits::MOST_UNITS;
use m5_region::queue::Ready;
use m5_region::region::Region;
use m5_terms::decimal::put_number;
use m5_terms::seal::Seal;
use m5_terms::text::byte_at;
use m5_terms::types::World;
use std::alloc::{AllocError, Global};
use std::io;

/// The most times that a word stands.
const MOST_TIMES: u64 = 16_777_216;

/// The value of a hexadecimal digit, or 0.
fn digit(byte: u8) -> u8 {
    match byte {
        b'0'..=b'9' => byte.wrapping_sub(b'0'),
        b'a'..=b'f' => byte.wrapping_sub(87),
        _ => 0,
    }
}

/// The number that decimal digits spell, or the greatest that is asked for.
fn number_of(digits: &[u8], most: u64) -> u64 {
    let mut number: u64 = 0;
    for byte in digits {
        let digit = byte.wrapping_sub(b'0');
        number = number.wrapping_mul(10).wrapping_add(digit as u64);
    }
    if number < most { number } else { most }
}

/// Adds the bytes that the digits name, so many times.
fn put_bytes(out: &mut Vec<u8>, digits: &[u8], times: u64) -> Result<(), AllocError> {
    for _ in 0..times {
        for place in 0..digits.len() / 2 {
            let high = digit(byte_at(digits, place.wrapping_mul(2)));
            let low = digit(byte_at(digits, place.wrapping_mul(2).wrapping_add(1)));
            out.push(high.wrapping_mul(16).wrapping_add(low))?;
        }
    }
    Ok(())
}

/// Says of a thread that was read how many units are left, its code and argument, the units of the region, and its bytes.
fn put_read(
    rt: &HostRuntime,
    out: &mut Vec<u8>,
    region: &Region,
    dicts: &Dicts,
    seal: &Seal,
    thread: &Ready,
) -> io::Result<()>
    requires code { Refers region.now.objects thread.now.code }
    requires argument { Refers region.now.objects thread.now.argument }
{
    out.extend_from_slice(b"read ")?;
    put_number(rt.alloc(), out, region.units_left())?;
    out.push(b' ')?;
    put_value(rt.alloc(), out, thread.code)?;
    out.push(b' ')?;
    put_value(rt.alloc(), out, thread.argument)?;
    out.push(b' ')?;
    put_hex(out, region.kinds())?;
    out.push(b' ')?;
    put_hex(out, region.content())?;
    match packed(rt, region, dicts, seal, thread)? {
        None => out.extend_from_slice(b" no bytes")?,
        Some((text, _, _)) => {
            out.push(b' ')?;
            put_hex(out, text.bytes())?;
        }
    }
    Ok(())
}

/// A region with one text and so many units left.
fn region_with(alloc: Global, units: u64) -> Result<Region, AllocError> {
    let mut region = Region::make(
        alloc,
        if units < MOST_UNITS - 2 {
            units + 2
        } else {
            MOST_UNITS
        },
    )?;
    let _ = region.add_text(b"x");
    Ok(region)
}

/// Says what came of a message.
fn answer(
    rt: &HostRuntime,
    dicts: &Dicts,
    seal: &Seal,
    units: u64,
    bytes: &[u8],
) -> io::Result<()> {
    let mut region = region_with(rt.alloc(), units)?;
    let kinds = Vec::from_slice(rt.alloc(), region.kinds())?;
    let content = Vec::from_slice(rt.alloc(), region.content())?;
    let mut out = Vec::new(rt.alloc());
    match unpack(&mut region, dicts, World::Server, seal, bytes) {
        Ok(thread) => put_read(rt, &mut out, &region, dicts, seal, &thread)?,
        Err(end) => {
            put_end(rt.alloc(), &mut out, end)?;
            if region.kinds() != kinds.as_slice() || region.content() != content.as_slice() {
                out.extend_from_slice(b", and the region is not as before")?;
            }
        }
    }
    out.push(b'\n')?;
    rt.stdout().write_all(out.as_slice())?;
    Ok(())
}

/// A line that is being read: the units, the bytes, and the word with how often it stands.
#[derive(Drop)]
struct Line {
    units: Option<u64>,
    bytes: Vec<u8>,
    word: Vec<u8>,
    times: u64,
}

/// Takes what is read of a line when a word ends.
fn end_word(line: &mut Line) -> Result<(), AllocError> {
    match line.units {
        None => line.units = Some(number_of(line.word.as_slice(), MOST_UNITS)),
        Some(_) => put_bytes(&mut line.bytes, line.word.as_slice(), line.times)?,
    }
    line.word.truncate(0);
    line.times = 1;
    Ok(())
}

/// Says of each line what came of its message.
pub fn answer_all(rt: &HostRuntime, dicts: &Dicts, seal: &Seal, text: &[u8]) -> io::Result<()> {
    let mut line = Line {
        units: None,
        bytes: Vec::new(rt.alloc()),
        word: Vec::new(rt.alloc()),
        times: 1,
    };
    for byte in text {
        match *byte {
            b'x' => {
                line.times = number_of(line.word.as_slice(), MOST_TIMES);
                line.word.truncate(0);
            }
            b' ' => end_word(&mut line)?,
            b'\n' => {
                end_word(&mut line)?;
                answer(
                    rt,
                    dicts,
                    seal,
                    line.units.unwrap_or(0),
                    line.bytes.as_slice(),
                )?;
                line.bytes.truncate(0);
                line.units = None;
            }
            other => line.word.push(other)?,
        }
    }
    Ok(())
}
