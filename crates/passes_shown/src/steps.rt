//! The steps that blocks of either language have.

use crate::names::{form_name, operation_name, primitive_name, world_name};
use m5_cps::step::{Constant, Ending, Straight, Test};
use std::{io, str};

fn show_constant(rt: &HostRuntime, constant: &Constant) -> io::Result<()> {
    match constant {
        Constant::Glob(number) => println!(rt; "function {number}"),
        Constant::Extern(primitive) => println!(rt; "primitive {}", primitive_name(*primitive)),
        Constant::Unit => println!(rt; "()"),
        Constant::Bool(true) => println!(rt; "true"),
        Constant::Bool(false) => println!(rt; "false"),
        Constant::Int(number) => println!(rt; "{number}"),
        Constant::Str(text) => match str::from_utf8(text.bytes()) {
            Ok(shown) => println!(rt; "\"{shown}\""),
            Err(_) => println!(rt; "a text"),
        },
        Constant::Addr(world) => println!(rt; "address {}", world_name(*world)),
        Constant::Here => println!(rt; "here"),
        Constant::Nil(number) => println!(rt; "nil of t{number}"),
    }
}

/// A straight form, whose value fills the next slot.
pub fn show_straight(rt: &HostRuntime, form: &Straight) -> io::Result<()> {
    match form {
        Straight::Constant(constant) => show_constant(rt, constant),
        Straight::One(operation, a) => println!(rt; "{} s{a}", operation_name(*operation)),
        Straight::Two(form, a, b) => println!(rt; "{} s{a} s{b}", form_name(*form)),
        Straight::Unheld(a) => println!(rt; "unheld s{a}"),
        Straight::Unsham(a) => println!(rt; "unsham s{a}"),
        Straight::Spawn(a) => println!(rt; "spawn s{a}"),
    }
}

/// What a test asks of a slot.
pub fn show_test(rt: &HostRuntime, test: Test, slot: u32) -> io::Result<()> {
    match test {
        Test::True => println!(rt; "if s{slot}"),
        Test::Left => println!(rt; "if s{slot} is left"),
        Test::Nil => println!(rt; "if s{slot} is nil"),
        Test::Here => println!(rt; "if s{slot} is here"),
    }
}

/// How many slots a test fills where it holds, and where it does not.
pub fn parts(test: Test) -> (u32, u32) {
    match test {
        Test::True | Test::Here => (0, 0),
        Test::Left => (1, 1),
        Test::Nil => (0, 2),
    }
}

pub fn show_ending(rt: &HostRuntime, ending: Ending) -> io::Result<()> {
    match ending {
        Ending::Go(k, a) => println!(rt; "go s{k} s{a}"),
        Ending::Call(f, a, k) => println!(rt; "call s{f} s{a} then s{k}"),
        Ending::Ask(primitive, a, k) => {
            println!(rt; "ask {} s{a} then s{k}", primitive_name(primitive))
        }
        Ending::Send(to, k, a) => println!(rt; "send to s{to}: s{k} s{a}"),
        Ending::Done => println!(rt; "done"),
    }
}
