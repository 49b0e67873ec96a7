//! Prints codes that have each form of the JavaScript subset, and what the machine of homes and panels makes of each.
//!
//! A case is a code as its printing has it, and then lines of words: how the run ended; the kinds and the content of the
//! region's units, in hexadecimal digits; the cells; the closures and arguments of the threads that wait.
//! `tools/js-check.sh` runs the same codes by an engine of the language.
//!
//! With the word `lines` it answers each line of standard input, which tells bytes that may be no code, and with `code` or
//! `page` whether all of its bytes are a code: `tools/codes.py` compares these answers with its own, and `bench/codes.sh` reads the
//! nanoseconds that it then writes to standard error.
#![tactic(auto)]

mod cases;
mod hostile;
mod runs;
mod times;

use cases::CASES;
use hostile::answer_lines;
use m5_base::bytes::read_all;
use m5_base::standard::StdSource;
use m5_js::{print, read};
use runs::{Ran, run};
use std::alloc::Global;
use std::{env, io};
use times::{time_code, time_page};

/// The most bytes that are read at once.
const LIMIT: u64 = 16_777_216;

/// Whether the text is that of a code, which is printed and run.
fn show(rt: &HostRuntime, alloc: Global, text: &str) -> io::Result<bool> {
    if text.as_bytes().len() >= 0xffff_ffff {
        return Ok(false);
    }
    let Ok(js) = read(alloc, text.as_bytes()) else {
        return Ok(false);
    };
    let printed = print(alloc, &js)?;
    rt.stdout().write_all(printed.bytes())?;
    let Some(ran) = run(alloc, &js)? else {
        return Ok(false);
    };
    ran.write(rt)?;
    Ok(true)
}

/// Writes whether all bytes of standard input together are a code, and the times of the calls.
fn answer_whole(rt: HostRuntime, is_server: bool) -> io::Result<()> {
    let mut source = StdSource::new(rt.stdin());
    let Ok(bytes) = read_all(rt.alloc(), &mut source, LIMIT) else {
        return println!(rt; "not read");
    };
    if is_server {
        time_code(&rt, rt.alloc(), bytes.as_slice())
    } else {
        time_page(&rt, rt.alloc(), bytes.as_slice())
    }
}

fn main(rt: HostRuntime) -> io::Result<()> {
    for argument in env::args(&rt)? {
        match argument.as_str() {
            "lines" => return answer_lines(&rt, rt.alloc()),
            "code" => return answer_whole(rt, true),
            "page" => return answer_whole(rt, false),
            _ => {}
        }
    }
    for (name, text) in CASES.iter() {
        println!(rt; "case {name}")?;
        if !show(&rt, rt.alloc(), text)? {
            println!(rt; "not run")?;
        }
    }
    Ok(())
}
