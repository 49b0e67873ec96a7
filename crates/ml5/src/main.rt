//! The program: its words, standard input and output, and the status as the process's number.
#![tactic(auto)]

use m5_base::gate::OpenGate;
use m5_base::standard::{StdSink, StdSource};
use m5_cli::{Status, Words, ml5};
use std::env;
use std::process::ExitCode;

/// The words after the program's name; none where they cannot be had as text.
fn words_of(rt: &HostRuntime) -> Result<Words, Status> {
    let mut words = Words::make(rt.alloc());
    let Ok(args) = env::args(rt) else {
        return Ok(words);
    };
    for word in args.skip(1) {
        if words.push(word.as_str()).is_err() {
            return Err(Status::NoMemory);
        }
    }
    Ok(words)
}

fn main(rt: HostRuntime) -> ExitCode {
    let status = match words_of(&rt) {
        Ok(words) => {
            let mut source = StdSource::new(rt.stdin());
            let mut sink = StdSink::new(rt.stdout());
            ml5(&rt, rt.alloc(), &words, &mut source, &mut sink, &OpenGate)
        }
        Err(status) => status,
    };
    ExitCode::from(status.number())
}
