//! Loops of the machine: a block that enters itself with one less, up to 0.

ghost use Rattle.std.specs.Prelude.{◌≡◌};
ghost use Rattle.m5_region.specs.Bench.{fresh_bench};

use m5_machine::blocks::Blocks;
use m5_machine::closure::entry;
use m5_machine::link::link;
use m5_machine::listed::Operands;
use m5_machine::run::run_front;
use m5_machine::step::{Instruction, Step};
use m5_region::bench::Bench;
use m5_region::limits::MOST_UNITS;
use m5_region::out::Out;
use m5_region::queue::Ready;
use m5_region::value::Value;
use std::alloc::{AllocError, Global};

/// Adds what a turn does beside the counting; it fills slots from 5 on.
fn put_work(alloc: Global, steps: &mut Vec<Step>, kind: u8) -> Result<(), AllocError> {
    match kind {
        1 => {
            for _ in 0..10 {
                steps.push(Step::Fill(Instruction::Add(2, 3)))?;
                steps.push(Step::Fill(Instruction::Mul(3, 3)))?;
            }
        }
        2 => {
            for _ in 0..10 {
                steps.push(Step::Fill(Instruction::Field(0, 0)))?;
            }
        }
        3 => {
            for _ in 0..10 {
                steps.push(Step::Fill(Instruction::Less(2, 3)))?;
                steps.push(Step::Fill(Instruction::EqualInts(2, 3)))?;
            }
        }
        4 => {
            let fields = vec![in alloc; 2, 3]?;
            steps.push(Step::Fill(Instruction::Array(Operands::of(fields))))?;
            steps.push(Step::Fill(Instruction::Field(5, 0)))?;
            steps.push(Step::Fill(Instruction::Field(5, 1)))?;
        }
        5 => {
            steps.push(Step::Fill(Instruction::Str(3)))?;
            steps.push(Step::Fill(Instruction::Cat(5, 5)))?;
        }
        _ => {}
    }
    Ok(())
}

/// The code of a loop: label 0 enters itself with its argument less one, while that is more than 0.
fn code(alloc: Global, kind: u8) -> Result<Option<Blocks>, AllocError> {
    let mut starts = Vec::new(alloc);
    starts.push(0)?;
    let mut steps = Vec::new(alloc);
    steps.push(Step::Fill(Instruction::Int(1)))?;
    steps.push(Step::Fill(Instruction::Sub(1, 2)))?;
    steps.push(Step::Fill(Instruction::Less(2, 1)))?;
    put_work(alloc, &mut steps, kind)?;
    steps.push(Step::If(4, 0))?;
    steps.push(Step::Go(0, 3))?;
    steps.push(Step::Done)?;
    link(alloc, starts, steps)
}

/// Runs a thread that enters label 0 with a number, in a bench of its own.
fn run_from(code: &Blocks, bench: &mut Bench, turns: u32) -> Out
    requires { bench.old ≡ fresh_bench bench.old.region.left bench.old.fuel }
{
    let Some(at) = bench.region.add(&[Value::Int(0)]) else {
        return Out::FullRegion;
    };
    let closure = Value::Array(at);
    if entry(code, &bench.region, closure).is_none() {
        return Out::FullTable;
    }
    let thread = Ready {
        code: closure,
        argument: Value::Int(turns as i64),
    };
    if !bench.threads.push(thread) {
        return Out::FullTable;
    }
    run_front(code, bench)
}

/// The most turns that a region of the largest size has units for, whatever a turn does.
const MOST_TURNS: u32 = 150_000;

/// Whether the loop ended after so many turns, in a bench with the largest region.
fn ends(alloc: Global, code: &Blocks, turns: u32) -> Result<bool, AllocError> {
    let mut bench = Bench::make(alloc, MOST_UNITS, turns as u64 + 1)?;
    Ok(run_from(code, &mut bench, turns) == Out::Ended)
}

/// Whether the loop of a kind ended after its turns, made in benches one after the other.
pub fn run(alloc: Global, kind: u8, turns: u32) -> Result<bool, AllocError> {
    let Some(code) = code(alloc, kind)? else {
        return Ok(false);
    };
    for _ in 0..turns / MOST_TURNS {
        if !ends(alloc, &code, MOST_TURNS)? {
            return Ok(false);
        }
    }
    ends(alloc, &code, turns % MOST_TURNS)
}
