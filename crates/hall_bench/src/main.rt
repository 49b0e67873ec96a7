//! Times turns through a hall beside the same turns under a `Mutex`, at 2, 4, 8 and 16 threads.
//!
//! Its argument is how many turns each thread takes. How many numbers were added goes to standard output, and the times to standard error.
#![tactic(auto)]

mod turns;

use std::time::Instant;
use std::{env, io};

fn main(rt: HostRuntime) -> io::Result<()> {
    let mut turns: u32 = 100;
    for argument in env::args(&rt)? {
        if let Ok(number) = argument.as_str().parse() {
            turns = number;
        }
    }
    for threads in [2, 4, 8, 16] {
        let start = Instant::now(&rt)?;
        let through_hall = turns::through_hall(&rt, rt.alloc(), threads, turns)?;
        let hall_time = start.elapsed(&rt)?.as_micros();
        let start = Instant::now(&rt)?;
        let under_lock = turns::under_lock(&rt, rt.alloc(), threads, turns)?;
        let lock_time = start.elapsed(&rt)?.as_micros();
        println!(rt;
            "{threads} threads: {through_hall} through the hall, {under_lock} under the lock"
        )?;
        eprintln!(rt; "{threads} {hall_time} {lock_time}")?;
    }
    Ok(())
}
