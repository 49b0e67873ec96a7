//! Types by number, and how blocks are entered.

use crate::names::world_name;
use m5_cps::entry::{Argument, Entry, Mode};
use m5_cps::types::{TypeRow, Types};
use std::io;

/// A line for each type.
pub fn show_types(rt: &HostRuntime, types: &Types) -> io::Result<()> {
    for number in 0..types.count() {
        print!(rt; "  t{number} = ")?;
        match types.row(number) {
            TypeRow::Unit => println!(rt; "unit")?,
            TypeRow::Bool => println!(rt; "bool")?,
            TypeRow::Int => println!(rt; "int")?,
            TypeRow::Str => println!(rt; "string")?,
            TypeRow::Address(world) => println!(rt; "{} addr", world_name(world))?,
            TypeRow::Product(a, b) => println!(rt; "t{a} * t{b}")?,
            TypeRow::Sum(a, b) => println!(rt; "t{a} + t{b}")?,
            TypeRow::Function(a, b) => println!(rt; "t{a} -> t{b}")?,
            TypeRow::List(a) => println!(rt; "t{a} list")?,
            TypeRow::Cell(a) => println!(rt; "t{a} ref")?,
            TypeRow::Sham(a) => println!(rt; "sham t{a}")?,
            TypeRow::At(a, world) => println!(rt; "t{a} at {}", world_name(world))?,
        }
    }
    Ok(())
}

fn mode_name(mode: Mode) -> &'static str {
    match mode {
        Mode::Only(world) => world_name(world),
        Mode::Everywhere => "everywhere",
    }
}

/// How a block is entered, and at which world.
pub fn show_entry(rt: &HostRuntime, entry: Entry) -> io::Result<()> {
    match entry {
        Entry::ByValue(mode, Argument::Value(number)) => {
            print!(rt; "takes t{number}, {}", mode_name(mode))
        }
        Entry::ByValue(mode, Argument::Continuation(number)) => {
            print!(rt; "takes k t{number}, {}", mode_name(mode))
        }
        Entry::ByCall(mode, argument, answer) => {
            print!(rt; "takes t{argument} and k t{answer}, {}", mode_name(mode))
        }
    }
}

/// How many slots are filled where the block begins, over those before it: the closure itself, and what it takes.
pub fn filled(entry: Entry) -> u32 {
    match entry {
        Entry::ByValue(_, _) => 2,
        Entry::ByCall(_, _, _) => 3,
    }
}
