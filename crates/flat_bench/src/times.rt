//! How long the passes take.

ghost use Rattle.std.specs.Prelude.{◌≤◌, IfOk, IfSome};
ghost use Rattle.m5_flat.specs.Table.{blocks_of};
ghost use Rattle.m5_dict.specs.Dictionaries.{AreDictionariesOf};

use crate::chains;
use crate::passes::write;
use m5_dict::dictionaries::dictionaries;
use m5_dictionary::dicts::Dicts;
use m5_flat::program::Flat;
use m5_hoist::hoist::hoist;
use m5_slice::slices::{Slices, slice};
use std::io;
use std::time::Instant;

/// The labels of the programs.
const SIZES: [usize; 4] = [4_000, 8_000, 16_000, 65_535];

/// How many words are written before each pass: 64 MiB, more than the caches of most machines hold.
const SWEPT: usize = 8_388_608;

/// Leaves nothing in the caches of what the pass read or made before.
fn sweep(words: &mut [u64]) {
    for index in 0..words.len() {
        words[index] ^= 1;
    }
}

/// Writes how long a pass took.
fn say(rt: &HostRuntime, pass: &str, labels: usize, start: Instant) -> io::Result<()> {
    let time = start.elapsed(rt)?.as_nanos();
    eprintln!(rt; "{pass} {labels} {time}")
}

/// A program of so many labels, hoisted, if it has few enough.
fn hoisted(rt: &HostRuntime, words: &mut [u64], labels: usize) -> io::Result<Option<Flat>>
    requires { 8 ≤ labels }
{
    let closed = chains::closed(rt.alloc(), labels)?;
    sweep(words);
    let start = Instant::now(rt)?;
    let flat = hoist(rt.alloc(), &closed).ok();
    say(rt, "hoist", labels, start)?;
    Ok(flat)
}

/// The dictionaries of a flat program, if there is memory for them.
fn named(
    rt: &HostRuntime,
    words: &mut [u64],
    labels: usize,
    flat: &Flat,
) -> io::Result<Option<Dicts>>
    ensures { IfOk result (λ o. IfSome o (λ d. AreDictionariesOf (blocks_of flat.now) d)) }
{
    sweep(words);
    let start = Instant::now(rt)?;
    let dicts = dictionaries(rt.alloc(), flat).ok();
    say(rt, "dictionaries", labels, start)?;
    Ok(dicts)
}

/// The slices of a flat program.
fn sliced(
    rt: &HostRuntime,
    words: &mut [u64],
    labels: usize,
    flat: &Flat,
    dicts: &Dicts,
) -> io::Result<Slices>
    requires { AreDictionariesOf (blocks_of flat.now) dicts.now }
{
    sweep(words);
    let start = Instant::now(rt)?;
    let slices = slice(rt.alloc(), flat, dicts)?;
    say(rt, "slice", labels, start)?;
    Ok(slices)
}

/// Makes each pass once on a program of so many labels.
fn once(rt: &HostRuntime, words: &mut [u64], labels: usize, is_last: bool) -> io::Result<()>
    requires { 8 ≤ labels }
{
    let Some(flat) = hoisted(rt, words, labels)? else {
        return Ok(());
    };
    let Some(dicts) = named(rt, words, labels, &flat)? else {
        return Ok(());
    };
    let slices = sliced(rt, words, labels, &flat, &dicts)?;
    if is_last {
        write(rt, &dicts, &slices)?;
    }
    Ok(())
}

/// Makes the passes so often, where the programs take turns.
pub fn run(rt: &HostRuntime, rounds: u32) -> io::Result<()> {
    let mut words: Vec<u64> = Vec::new(rt.alloc());
    words.resize(SWEPT, 0)?;
    for round in 0..rounds {
        for labels in SIZES {
            once(rt, words.as_mut_slice(), labels, round + 1 == rounds)?;
        }
    }
    Ok(())
}
