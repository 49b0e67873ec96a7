//! Says which programs of many labels are hoisted and what becomes of a small one, or times hoisting, dictionaries and slices.
//!
//! With no argument it builds closed programs of 65,535 and of 65,536 labels and hoists them, and says how many type lines and
//! blocks a program of 66 labels has. With a number it makes each pass so often on programs of several sizes, each time on cold
//! caches: how many lines and blocks came goes to standard output, and the nanoseconds to standard error, as lines of the pass's
//! name, the number of labels and that of the nanoseconds.
#![tactic(auto)]

ghost use Rattle.std.specs.Prelude.{◌≤◌};

mod chains;
mod passes;
mod times;

use m5_hoist::hoist::{HoistEnd, hoist};
use std::{env, io};

/// Builds a closed program of so many labels, hoists it, and says what came of it.
fn show_hoisting(rt: &HostRuntime, labels: usize) -> io::Result<()>
    requires { 8 ≤ labels }
{
    let closed = chains::closed(rt.alloc(), labels)?;
    let built = closed.table().labels().len();
    match hoist(rt.alloc(), &closed) {
        Ok(_) => println!(rt; "{built} labels: hoisted"),
        Err(HoistEnd::Labels) => println!(rt; "{built} labels: too many labels"),
        Err(HoistEnd::Memory) => println!(rt; "{built} labels: out of memory"),
    }
}

fn main(rt: HostRuntime) -> io::Result<()> {
    let mut rounds: u32 = 0;
    for argument in env::args(&rt)? {
        if let Ok(number) = argument.as_str().parse() {
            rounds = number;
        }
    }
    if rounds > 0 {
        return times::run(&rt, rounds);
    }
    show_hoisting(&rt, 65_535)?;
    show_hoisting(&rt, 65_536)?;
    passes::show(&rt, 66)
}
