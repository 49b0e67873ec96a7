//! Lists and texts packed and unpacked, and how long it takes.

use crate::made::{list, text};
use crate::thread::packed;
use m5_dictionary::dicts::Dicts;
use m5_marshal::unpack;
use m5_region::limits::MOST_UNITS;
use m5_region::region::Region;
use m5_terms::seal::Seal;
use m5_terms::types::World;
use std::io;
use std::time::Instant;

/// Unpacks bytes into an empty region and packs the thread again, and says how long each took. Answers the bytes of the second
/// format, or none where the bytes were refused.
fn once(
    rt: &HostRuntime,
    region: &mut Region,
    dicts: &Dicts,
    seal: &Seal,
    name: &str,
    size: u32,
    format: u32,
    bytes: &[u8],
) -> io::Result<Vec<u8>> {
    region.cut(0);
    let start = Instant::now(rt)?;
    let answer = unpack(region, dicts, World::Server, seal, bytes);
    let time = start.elapsed(rt)?.as_nanos();
    let mut out = Vec::new(rt.alloc());
    if let Ok(thread) = answer {
        eprintln!(rt; "{name} {size} unpack{format} {time}")?;
        if let Some((packed, test, time)) = packed(rt, &*region, dicts, seal, &thread)? {
            eprintln!(rt; "{name} {size} test {test}")?;
            eprintln!(rt; "{name} {size} pack {time}")?;
            out.extend_from_slice(packed.bytes())?;
        }
    }
    Ok(out)
}

/// Times a message of the first format, and the same in the second.
fn time(
    rt: &HostRuntime,
    region: &mut Region,
    dicts: &Dicts,
    seal: &Seal,
    name: &str,
    size: u32,
    first: &[u8],
    rounds: u32,
) -> io::Result<()> {
    let mut same = true;
    let mut bytes = 0;
    for _ in 0..rounds {
        let second = once(rt, region, dicts, seal, name, size, 1, first)?;
        let again = once(rt, region, dicts, seal, name, size, 2, second.as_slice())?;
        bytes = second.len();
        same = same && again.as_slice() == second.as_slice();
    }
    let before = first.len();
    println!(rt; "{name} {size} bytes {bytes} {before} {same}")?;
    Ok(())
}

/// Times lists and texts of several sizes.
pub fn run(rt: &HostRuntime, dicts: &Dicts, seal: &Seal, rounds: u32) -> io::Result<()> {
    let mut region = Region::make(rt.alloc(), MOST_UNITS)?;
    for size in [1, 1_000, 5_000, 10_000, 20_000] {
        let first = list(rt.alloc(), seal, size)?;
        time(
            rt,
            &mut region,
            dicts,
            seal,
            "list",
            size,
            first.as_slice(),
            rounds,
        )?;
    }
    for size in [200_000, 400_000] {
        let first = text(rt.alloc(), seal, size)?;
        time(
            rt,
            &mut region,
            dicts,
            seal,
            "text",
            size,
            first.as_slice(),
            rounds,
        )?;
    }
    Ok(())
}
