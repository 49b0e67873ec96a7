//! How runs of small codes end.

ghost use Rattle.std.specs.Prelude.{◌≡◌, ◌≤◌};
ghost use Rattle.m5_region.specs.Bench.{fresh_bench};

use m5_bytecode::code::Code;
use m5_machine::closure::entry;
use m5_machine::link::link;
use m5_machine::listed::TextBytes;
use m5_machine::step::{Instruction, Step};
use m5_region::bench::Bench;
use m5_region::out::Out;
use m5_region::queue::Ready;
use m5_region::value::{Ref, Value};
use m5_server_vm::run_server;
use std::alloc::Global;
use std::test::*;

/// Runs a thread that enters label 0 with null.
fn enter(code: &Code, bench: &mut Bench) -> Option<Out>
    requires { bench.old ≡ fresh_bench bench.old.region.left bench.old.fuel }
{
    let at = bench.region.add(&[Value::Int(0)])?;
    let closure = Value::Array(at);
    if entry(code.blocks(), &bench.region, closure).is_none() {
        return None;
    }
    let thread = Ready {
        code: closure,
        argument: Value::Null,
    };
    if !bench.threads.push(thread) {
        return None;
    }
    Some(run_server(code, bench))
}

/// How the code of these steps ends, whose label 0 begins at the first, with so many units and so
/// much fuel.
fn ends(alloc: Global, steps: Vec<Step>, units: u64, fuel: u64) -> Result<Out, Fail>
    requires { units ≤ 1000 }
{
    let mut starts = Vec::new(alloc);
    starts.push(0)?;
    let blocks = link(alloc, starts, steps)?.ok_or("no blocks")?;
    let code = Code::of(blocks).ok_or("no code")?;
    let mut bench = Bench::make(alloc, units, fuel)?;
    Ok(enter(&code, &mut bench).ok_or("no thread")?)
}

/// The instruction that makes a text.
fn text(alloc: Global, bytes: &[u8]) -> Result<Step, Fail> {
    let held = Vec::from_slice(alloc, bytes)?;
    Ok(Step::Fill(Instruction::Text(TextBytes::of(held))))
}

/// A send home of a value, by the block of label 0.
fn sent(argument: Value) -> Out {
    Out::Sends {
        to: 0,
        code: Value::Array(Ref(0)),
        argument,
        label: 0,
    }
}

#[test]
fn asks_with_what_the_primitive_takes(rt: HostRuntime) -> Result<(), Fail> {
    let alloc = rt.alloc();
    let key = text(alloc, b"key")?;
    let out = ends(alloc, vec![in alloc; key, Step::Ask(4, 2, 0)]?, 100, 1)?;
    let asks = Out::Asks {
        prim: 4,
        argument: Value::Text(Ref(1)),
        next: Value::Array(Ref(0)),
    };
    assert_eq!(rt; out, asks);
    let out = ends(alloc, vec![in alloc; Step::Ask(4, 1, 0)]?, 100, 1)?;
    assert_eq!(rt; out, Out::Wrong(0), "a read of no text");
    let key = text(alloc, b"k")?;
    let out = ends(alloc, vec![in alloc; key, Step::Ask(5, 2, 0)]?, 100, 1)?;
    assert_eq!(rt; out, Out::Wrong(0), "a write of no array");
    Ok(())
}

#[test]
fn a_quotient_is_rounded_towards_nought(rt: HostRuntime) -> Result<(), Fail> {
    let alloc = rt.alloc();
    let seven = Step::Fill(Instruction::Int(-7));
    let two = Step::Fill(Instruction::Int(2));
    let quotient = Step::Fill(Instruction::Quo(2, 3));
    let steps = vec![in alloc; seven, two, quotient, Step::Send(0, 0, 4)]?;
    assert_eq!(rt; ends(alloc, steps, 100, 1)?, sent(Value::Int(-3)));
    let nought = Step::Fill(Instruction::Int(0));
    let quotient = Step::Fill(Instruction::Quo(2, 2));
    let steps = vec![in alloc; nought, quotient, Step::Done]?;
    assert_eq!(rt; ends(alloc, steps, 100, 1)?, Out::Wrong(0));
    Ok(())
}

#[test]
fn a_cell_holds_what_was_stored(rt: HostRuntime) -> Result<(), Fail> {
    let alloc = rt.alloc();
    let cell = Step::Fill(Instruction::Cell(1));
    let truth = Step::Fill(Instruction::Bool(true));
    let store = Step::Fill(Instruction::Store(2, 3));
    let load = Step::Fill(Instruction::Load(2));
    let steps = vec![in alloc; cell, truth, store, load, Step::Send(0, 0, 5)]?;
    assert_eq!(rt; ends(alloc, steps, 100, 1)?, sent(Value::Bool(true)));
    Ok(())
}

#[test]
fn what_is_needed_is_looked_at_before_room(rt: HostRuntime) -> Result<(), Fail> {
    let alloc = rt.alloc();
    let again = vec![in alloc; Step::Go(0, 1)]?;
    assert_eq!(rt; ends(alloc, again, 100, 1000)?, Out::Spent);
    let nowhere = vec![in alloc; Step::Go(1, 1)]?;
    assert_eq!(rt;
        ends(alloc, nowhere, 100, 1)?,
        Out::Wrong(0),
        "a go to null without fuel"
    );
    let long = text(alloc, b"nine byte")?;
    assert_eq!(rt;
        ends(alloc, vec![in alloc; long, Step::Done]?, 4, 1)?,
        Out::FullRegion
    );
    let join = Step::Fill(Instruction::Cat(0, 1));
    let steps = vec![in alloc; join, Step::Done]?;
    assert_eq!(rt;
        ends(alloc, steps, 2, 1)?,
        Out::Wrong(0),
        "no texts in a full region"
    );
    let spawn = Step::Fill(Instruction::Spawn(0));
    let steps = vec![in alloc; spawn, Step::Go(0, 1)]?;
    assert_eq!(rt; ends(alloc, steps, 100, 5000)?, Out::FullTable);
    Ok(())
}
