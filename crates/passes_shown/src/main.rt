//! Shows what each pass of the compiler makes of a program text, which it reads from standard input.
//!
//! The blocks of the conversion stand first. A slot is `s` and its number, a type `t` and its number, and `k` stands before the
//! type of what a continuation takes. The other passes are to follow.
#![tactic(auto)]

mod blocks;
mod names;
mod steps;
mod types;

use blocks::show_blocks;
use m5_base::bytes::{Bytes, read_all};
use m5_base::standard::StdSource;
use m5_cps_convert::to_cps::to_cps;
use m5_front::program::{Accepted, read_program};
use std::io;

/// The most bytes of a text, as in the program.
const LIMIT: u64 = 262_144;

/// The text, as a program that is typed.
fn accepted(rt: &HostRuntime, text: &Bytes) -> Option<Accepted> {
    if text.as_slice().len() > LIMIT as usize {
        return None;
    }
    read_program(rt.alloc(), text.as_slice()).ok()
}

fn main(rt: HostRuntime) -> io::Result<()> {
    let mut source = StdSource::new(rt.stdin());
    let Ok(text) = read_all(rt.alloc(), &mut source, LIMIT) else {
        return println!(rt; "not read");
    };
    let Some(accepted) = accepted(&rt, &text) else {
        return println!(rt; "no program");
    };
    let cps = to_cps(rt.alloc(), &accepted.program)?;
    println!(rt; "Blocks")?;
    show_blocks(&rt, &cps)
}
