//! Texts between quotes, as they are read and written.

ghost use Rattle.std.specs.Prelude.{◌≡◌, ◌++◌, length, IfOk, OnOk};
ghost use Rattle.m5_terms.specs.Quoted.{is_plain, escape, escaping, quotation, quoted, Within};

use crate::text::{Text, byte_at};
use std::alloc::{AllocError, Global};

/// What follows an opening quote.
#[derive(Drop)]
pub enum Quoted {
    /// The value, and how many bytes it takes with the closing quote.
    Closed(Text, usize),
    /// How many bytes stand before the first that is out of place.
    Broken(usize),
}

/// Whether the byte stands for itself between quotes.
fn is_plain(byte: u8) -> bool
    ensures { result ≡ is_plain byte }
{
    byte >= b' ' && byte <= b'~' && byte != b'"' && byte != b'\\'
}

/// The byte that an escape stands for, by the byte after its backslash.
fn escape(byte: u8) -> Option<u8>
    ensures { result ≡ escape byte }
{
    match byte {
        b'"' => Some(b'"'),
        b'\\' => Some(b'\\'),
        b'n' => Some(b'\n'),
        b't' => Some(b'\t'),
        _ => None,
    }
}

/// Reads a text after its opening quote.
#[tactic(auto, using(crate::proofs::Quoting::quoted_closes, crate::proofs::Quoting::quoted_escapes, crate::proofs::Quoting::quoted_stops, crate::proofs::Quoting::quoted_goes, crate::proofs::Quoting::quoted_breaks, crate::proofs::Quoting::quoted_cut, crate::proofs::Quoting::text_push, crate::proofs::Quoting::plain_text, crate::proofs::Quoting::escape_text))]
pub fn read_quoted(alloc: Global, rest: &[u8]) -> Result<Quoted, AllocError>
    ensures value { IfOk result (λ q. q ≡ quoted rest.now) }
    ensures within { IfOk result (λ q. Within q (length rest.now)) }
{
    let mut value = Vec::new(alloc);
    let mut at = 0;
    while at < rest.len() {
        let byte = rest[at];
        if byte == b'"' {
            return Ok(Quoted::Closed(Text::of(alloc, &value)?, at + 1));
        }
        if byte == b'\\' {
            match escape(byte_at(rest, at + 1)) {
                None => return Ok(Quoted::Broken(at)),
                Some(meant) => value.push(meant)?,
            }
            at += 2;
        } else {
            if !is_plain(byte) {
                return Ok(Quoted::Broken(at));
            }
            value.push(byte)?;
            at += 1;
        }
    }
    Ok(Quoted::Broken(at))
}

/// Adds a byte of a text between quotes.
fn put_escaped(out: &mut Vec<u8>, byte: u8) -> Result<(), AllocError>
    ensures { OnOk result (out.new.items ≡ out.old.items ++ escaping byte) }
{
    match byte {
        b'"' => out.extend_from_slice(b"\\\""),
        b'\\' => out.extend_from_slice(b"\\\\"),
        b'\n' => out.extend_from_slice(b"\\n"),
        b'\t' => out.extend_from_slice(b"\\t"),
        _ => Ok(out.push(byte)?),
    }
}

/// Adds a text between quotes.
pub fn put_quoted(out: &mut Vec<u8>, text: &Text) -> Result<(), AllocError>
    ensures { OnOk result (out.new.items ≡ out.old.items ++ quotation text.now) }
{
    out.push(b'"')?;
    for byte in text.bytes() {
        put_escaped(out, *byte)?;
    }
    out.push(b'"')?;
    Ok(())
}
