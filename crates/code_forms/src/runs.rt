//! A run of a code's first thread, and what it leaves.

ghost use Rattle.std.specs.Prelude.{◌≡◌};
ghost use Rattle.m5_region.specs.Bench.{fresh_bench};

use m5_home_vm::run_home;
use m5_js::js::Js;
use m5_machine::closure::entry;
use m5_region::bench::Bench;
use m5_region::out::Out;
use m5_region::queue::Ready;
use m5_region::value::Value;
use std::alloc::{AllocError, Global};
use std::io;

/// The units of the region, and the fuel.
const UNITS: u64 = 1000;

const FUEL: u64 = 100;

/// How a run ended, and what stands in the bench then.
#[derive(Drop)]
pub struct Ran {
    out: Out,
    bench: Bench,
}

/// Runs the thread that enters block 0 with null, whose closure has no fields more.
fn enter(js: &Js, bench: &mut Bench) -> Option<Out>
    requires { bench.old ≡ fresh_bench bench.old.region.left bench.old.fuel }
{
    let at = bench.region.add(&[Value::Int(0)])?;
    let closure = Value::Array(at);
    if entry(js.blocks(), &bench.region, closure).is_none() {
        return None;
    }
    let thread = Ready {
        code: closure,
        argument: Value::Null,
    };
    if !bench.threads.push(thread) {
        return None;
    }
    Some(run_home(js, bench))
}

/// Runs the code's block 0, if it has one.
pub fn run(alloc: Global, js: &Js) -> Result<Option<Ran>, AllocError> {
    let mut bench = Bench::make(alloc, UNITS, FUEL)?;
    match enter(js, &mut bench) {
        Some(out) => Ok(Some(Ran { out, bench })),
        None => Ok(None),
    }
}

/// A value in a word: the letter of its kind, and its number.
fn write_value(rt: &HostRuntime, value: Value) -> io::Result<()> {
    match value {
        Value::Null => print!(rt; " null"),
        Value::Bool(true) => print!(rt; " true"),
        Value::Bool(false) => print!(rt; " false"),
        Value::Int(number) => print!(rt; " i{number}"),
        Value::Text(at) => print!(rt; " t{}", at.0),
        Value::Array(at) => print!(rt; " a{}", at.0),
    }
}

fn write_out(rt: &HostRuntime, out: Out) -> io::Result<()> {
    match out {
        Out::Asks {
            prim,
            argument,
            next,
        } => {
            print!(rt; "asks {prim}")?;
            write_value(rt, argument)?;
            write_value(rt, next)?;
        }
        Out::Sends {
            to,
            code,
            argument,
            ..
        } => {
            print!(rt; "sends {to}")?;
            write_value(rt, code)?;
            write_value(rt, argument)?;
        }
        Out::Ended => print!(rt; "ended")?,
        Out::Spent => print!(rt; "spent")?,
        Out::FullRegion => print!(rt; "region")?,
        Out::FullTable => print!(rt; "table")?,
        Out::Wrong(label) => print!(rt; "wrong {label}")?,
    }
    println!(rt)
}

fn write_bytes(rt: &HostRuntime, name: &str, bytes: &[u8]) -> io::Result<()> {
    print!(rt; "{name} ")?;
    for byte in bytes {
        print!(rt; "{byte:02x}")?;
    }
    println!(rt)
}

impl Ran {
    /// Writes how the run ended, the region's units, the cells, and the threads that wait.
    pub fn write(self, rt: &HostRuntime) -> io::Result<()> {
        let Ran { out, mut bench } = self;
        write_out(rt, out)?;
        write_bytes(rt, "kinds", bench.region.kinds())?;
        write_bytes(rt, "content", bench.region.content())?;
        print!(rt; "cells")?;
        for place in 0..bench.cells.len() {
            if let Some(value) = bench.cells.get(place) {
                write_value(rt, value)?;
            }
        }
        println!(rt)?;
        print!(rt; "threads")?;
        for _ in 0..bench.threads.len() {
            if let Some(thread) = bench.threads.pop() {
                write_value(rt, thread.code)?;
                write_value(rt, thread.argument)?;
            }
        }
        println!(rt)
    }
}
