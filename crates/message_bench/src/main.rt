//! Reads messages from lines, or times packing and unpacking.
//!
//! With no argument it reads lines of standard input and says of each what came of unpacking its bytes. With a number it
//! packs and unpacks lists and texts so often: how many bytes each takes goes to standard output, and the nanoseconds of each
//! time to standard error.
#![tactic(auto)]

mod dictionary;
mod lines;
mod made;
mod shown;
mod thread;
mod times;

use m5_base::bytes::read_all;
use m5_base::standard::StdSource;
use m5_terms::seal::seal_of;
use std::{env, io};

/// The most bytes of standard input.
const LIMIT: u64 = 134_217_728;

fn main(rt: HostRuntime) -> io::Result<()> {
    let mut rounds: u32 = 0;
    for argument in env::args(&rt)? {
        if let Ok(number) = argument.as_str().parse() {
            rounds = number;
        }
    }
    let Some(dicts) = dictionary::dictionary(rt.alloc())? else {
        println!(rt; "no dictionaries")?;
        return Ok(());
    };
    let seal = seal_of(1);
    if rounds > 0 {
        return times::run(&rt, &dicts, &seal, rounds);
    }
    let mut source = StdSource::new(rt.stdin());
    let Ok(text) = read_all(rt.alloc(), &mut source, LIMIT) else {
        println!(rt; "not read")?;
        return Ok(());
    };
    lines::answer_all(&rt, &dicts, &seal, text.as_slice())
}
