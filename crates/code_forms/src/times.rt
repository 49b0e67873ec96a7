//! How long the calls on both codes take.

use m5_bytecode::{decode, encode};
use m5_js::{print, read};
use std::alloc::Global;
use std::io;
use std::time::Instant;

/// Writes whether the bytes are a server's code, and to standard error the nanoseconds of `decode`, and of `encode` if they are.
pub fn time_code(rt: &HostRuntime, alloc: Global, bytes: &[u8]) -> io::Result<()> {
    let start = Instant::now(rt)?;
    let decoded = decode(alloc, bytes);
    let time = start.elapsed(rt)?.as_nanos();
    eprintln!(rt; "decode {} {time}", bytes.len())?;
    let Ok(code) = decoded else {
        return println!(rt; "false");
    };
    let start = Instant::now(rt)?;
    let again = encode(alloc, &code)?;
    let time = start.elapsed(rt)?.as_nanos();
    eprintln!(rt; "encode {} {time}", again.bytes().len())?;
    println!(rt; "true")
}

/// The same of a browser's code, by `read` and `print`.
pub fn time_page(rt: &HostRuntime, alloc: Global, bytes: &[u8]) -> io::Result<()> {
    if bytes.len() >= 0xffff_ffff {
        return println!(rt; "long");
    }
    let start = Instant::now(rt)?;
    let found = read(alloc, bytes);
    let time = start.elapsed(rt)?.as_nanos();
    eprintln!(rt; "read {} {time}", bytes.len())?;
    let Ok(js) = found else {
        return println!(rt; "false");
    };
    let start = Instant::now(rt)?;
    let again = print(alloc, &js)?;
    let time = start.elapsed(rt)?.as_nanos();
    eprintln!(rt; "print {} {time}", again.bytes().len())?;
    println!(rt; "true")
}
