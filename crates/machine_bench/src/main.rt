//! Times a region's calls, and loops of the machine.
//!
//! Its argument is how many turns each loop takes. What the loops came to goes to standard output,
//! and the times to standard error, as lines of a name, how much was done, and nanoseconds.
#![tactic(auto)]

mod loops;
mod regions;

use std::time::Instant;
use std::{env, io};

fn main(rt: HostRuntime) -> io::Result<()> {
    let mut turns: u32 = 100;
    for argument in env::args(&rt)? {
        if let Ok(number) = argument.as_str().parse() {
            turns = number;
        }
    }
    let start = Instant::now(&rt)?;
    let made = regions::make_largest(rt.alloc());
    let time = start.elapsed(&rt)?.as_nanos();
    println!(rt; "made {made}")?;
    eprintln!(rt; "make 1 {time}")?;
    let start = Instant::now(&rt)?;
    let added = regions::add_and_read(rt.alloc(), turns);
    let time = start.elapsed(&rt)?.as_nanos();
    println!(rt; "added {added}")?;
    eprintln!(rt; "add {added} {time}")?;
    for kind in [0, 1, 2, 3, 4, 5] {
        let start = Instant::now(&rt)?;
        let ended = loops::run(rt.alloc(), kind, turns)?;
        let time = start.elapsed(&rt)?.as_nanos();
        println!(rt; "loop {kind} ended {ended}")?;
        eprintln!(rt; "loop{kind} {turns} {time}")?;
    }
    Ok(())
}
