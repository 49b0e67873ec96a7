//! What the readers of both codes answer to bytes that may be no code.

use m5_bytecode::{decode, encode, listing};
use m5_js::{JsEnd, print, read};
use std::alloc::{AllocError, Global};
use std::io;

/// The value of a hexadecimal digit.
fn digit(byte: u8) -> u8 {
    match byte {
        b'0'..=b'9' => byte - b'0',
        b'a'..=b'f' => byte - b'a' + 10,
        _ => 0,
    }
}

/// The bytes that the digits tell, two a byte.
fn bytes_of(alloc: Global, digits: &[u8]) -> Result<Vec<u8>, AllocError> {
    let mut bytes = Vec::new(alloc);
    let mut high = None;
    for byte in digits {
        match high {
            None => high = Some(digit(*byte)),
            Some(first) => {
                bytes.push((first << 4) | digit(*byte))?;
                high = None;
            }
        }
    }
    Ok(bytes)
}

/// Writes the listing of the bytes' code with a bar for each line's end, and whether the code is spelled by these bytes.
fn answer_code(rt: &HostRuntime, alloc: Global, bytes: &[u8]) -> io::Result<()> {
    let Ok(code) = decode(alloc, bytes) else {
        return println!(rt; "bad");
    };
    let again = encode(alloc, &code)?;
    let same = again.bytes() == bytes;
    print!(rt; "code {same} ")?;
    let lines = listing(alloc, &code)?;
    for byte in lines.bytes() {
        let shown = if *byte == b'\n' { b'|' } else { *byte };
        rt.stdout().write_all(&[shown])?;
    }
    println!(rt)
}

/// Writes whether the bytes are a browser's code that is printed as they are, or the first line that is none.
fn answer_page(rt: &HostRuntime, alloc: Global, bytes: &[u8]) -> io::Result<()> {
    if bytes.len() >= 0xffff_ffff {
        return println!(rt; "long");
    }
    match read(alloc, bytes) {
        Ok(js) => {
            let again = print(alloc, &js)?;
            let same = again.bytes() == bytes;
            println!(rt; "page {same}")
        }
        Err(JsEnd::Bad(place)) => println!(rt; "bad {} {}", place.line, place.column),
        Err(JsEnd::Memory) => println!(rt; "memory"),
    }
}

/// Answers bytes behind the letter of their kind: `c` for a server's code, `p` for a browser's.
fn answer(rt: &HostRuntime, alloc: Global, kind: u8, bytes: &[u8]) -> io::Result<()> {
    match kind {
        b'c' => answer_code(rt, alloc, bytes),
        b'p' => answer_page(rt, alloc, bytes),
        _ => println!(rt; "no kind"),
    }
}

/// Answers each line of standard input, which is the letter of a kind and then hexadecimal digits.
pub fn answer_lines(rt: &HostRuntime, alloc: Global) -> io::Result<()> {
    for line in rt.stdin().lines(alloc) {
        let line = line?;
        let Some((kind, digits)) = line.as_str().as_bytes().split_first() else {
            println!(rt; "no kind")?;
            continue;
        };
        let bytes = bytes_of(alloc, digits)?;
        answer(rt, alloc, *kind, &bytes)?;
    }
    Ok(())
}
