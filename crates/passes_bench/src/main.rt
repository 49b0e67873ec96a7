//! Times the passes of the compiler over a program text, which it reads from standard input.
//!
//! Its argument is how often each pass is made, each time on cold caches. What came of the last time goes to standard output,
//! and the nanoseconds of each time to standard error, as lines of the pass's name and a number.
#![tactic(auto)]

use m5_base::bytes::{Bytes, read_all};
use m5_base::standard::StdSource;
use m5_cps::cps::Cps;
use m5_cps::step::Step;
use m5_cps_convert::to_cps::to_cps;
use m5_front::program::{Accepted, read_program};
use std::time::Instant;
use std::{env, io};

/// The most bytes of a text, as in the program.
const LIMIT: u64 = 262_144;

/// How many words are written before each pass: 64 MiB, more than the caches of most machines hold.
const SWEPT: usize = 8_388_608;

/// Leaves nothing in the caches of what the pass read or made before, so that small programs, which fit there, have
/// it no better than large ones.
fn sweep(words: &mut [u64]) {
    for index in 0..words.len() {
        words[index] ^= 1;
    }
}

/// The text, as a program that is typed.
fn accepted(rt: &HostRuntime, text: &Bytes) -> Option<Accepted> {
    if text.as_slice().len() > LIMIT as usize {
        return None;
    }
    read_program(rt.alloc(), text.as_slice()).ok()
}

/// How many blocks there are: main's, those of the declared functions, and one for each closure.
fn count_blocks(cps: &Cps) -> usize {
    let closures = cps
        .steps()
        .iter()
        .filter(|step| matches!(step, Step::Closure { .. }))
        .count();
    closures
        .saturating_add(cps.functions().len())
        .saturating_add(1)
}

fn main(rt: HostRuntime) -> io::Result<()> {
    let mut rounds: u32 = 1;
    for argument in env::args(&rt)? {
        if let Ok(number) = argument.as_str().parse() {
            rounds = number;
        }
    }
    let mut source = StdSource::new(rt.stdin());
    let Ok(text) = read_all(rt.alloc(), &mut source, LIMIT) else {
        println!(rt; "not read")?;
        return Ok(());
    };
    let Some(accepted) = accepted(&rt, &text) else {
        println!(rt; "no program")?;
        return Ok(());
    };
    let mut words: Vec<u64> = Vec::new(rt.alloc());
    words.resize(SWEPT, 0)?;
    let mut steps = 0;
    let mut blocks = 0;
    for _ in 0..rounds {
        sweep(words.as_mut_slice());
        let start = Instant::now(&rt)?;
        let cps = to_cps(rt.alloc(), &accepted.program)?;
        let time = start.elapsed(&rt)?.as_nanos();
        eprintln!(rt; "to_cps {time}")?;
        steps = cps.count();
        blocks = count_blocks(&cps);
    }
    println!(rt; "to_cps: {blocks} blocks, {steps} steps")?;
    Ok(())
}
