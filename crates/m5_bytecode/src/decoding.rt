//! A code read from bytes.

ghost use Rattle.std.specs.Prelude.{◌≡◌, ◌≤◌, ◌<◌, ◌∷◌, [], ◌++◌, ℕ, List, length, IfOk, IfErr, OnOk};
ghost use Rattle.std.specs.Vec.{vec_len};
ghost use Rattle.m5_machine.specs.declared.step.Step.{Step};
ghost use Rattle.m5_machine.specs.Blocks.{Flat};
ghost use Rattle.m5_machine.specs.Labelled.{Labelled, blocks_of};
ghost use Rattle.m5_machine.specs.code.Flattened.{IsLaid};
ghost use Rattle.m5_bytecode.specs.Server.{Spells, NoCode};
ghost use Rattle.m5_bytecode.specs.code.Blocks.{BlockRead, NoBlock};
ghost use Rattle.m5_bytecode.specs.code.Bodies.{BodyRead, NoBody};
ghost use Rattle.m5_bytecode.specs.declared.input.CodeEnd.TheVariants.{Memory};

use crate::code::Code;
use crate::input::{CodeEnd, Input};
use m5_machine::blocks::NO_BLOCK;
use m5_machine::link::link;
use m5_machine::step::Step;
use std::alloc::{AllocError, Global};

/// How many endings may be open at once.
const MOST_OPEN: u32 = 1000;

/// Adds a step.
fn push(steps: &mut Vec<Step>, step: Step) -> Result<(), CodeEnd>
    ensures ok { OnOk result (steps.new.items ≡ steps.old.items ++ step ∷ []) }
    ensures err { IfErr result (λ e. e ≡ Memory) }
{
    match steps.push(step) {
        Ok(()) => Ok(()),
        Err(_) => Err(CodeEnd::Memory),
    }
}

/// Reads a body and adds its steps. With its outermost ending so many are open.
fn read_body(
    input: &mut Input,
    alloc: Global,
    level: u32,
    steps: &mut Vec<Step>,
) -> Result<(), CodeEnd>
    requires { level ≤ 1000 }
    ensures ok { OnOk result (BodyRead level input.old.rest.now steps.old.items input.new.rest.now steps.new.items) }
    ensures err { IfErr result (λ e. NoBody e level input.old.rest.now) }
{
    loop {
        match input.step(alloc)? {
            Step::Fill(instruction) => push(steps, Step::Fill(instruction))?,
            Step::If(slot, length) => {
                if level == MOST_OPEN {
                    return Err(CodeEnd::Bad);
                }
                push(steps, Step::If(slot, 0))?;
                let before = input.rest.len();
                read_body(input, alloc, level + 1, steps)?;
                if before - input.rest.len() != length as usize {
                    return Err(CodeEnd::Bad);
                }
                return read_body(input, alloc, level + 1, steps);
            }
            Step::Go(closure, value) => return push(steps, Step::Go(closure, value)),
            Step::Ask(primitive, argument, next) => {
                return push(steps, Step::Ask(primitive, argument, next));
            }
            Step::Send(world, closure, value) => {
                return push(steps, Step::Send(world, closure, value));
            }
            Step::Done => return push(steps, Step::Done),
        }
    }
}

/// Adds labels without a block up to a label.
fn skip_labels(starts: &mut Vec<u32>, label: usize) -> Result<(), AllocError>
    requires { vec_len starts.old ≤ label }
    ensures count { OnOk result (vec_len starts.new ≡ label) }
    ensures laid { OnOk result ((ss : List Step) (bs : List Labelled) → IsLaid starts.old.items ss bs → IsLaid starts.new.items ss bs) }
{
    while starts.len() < label {
        starts.push(NO_BLOCK)?;
    }
    Ok(())
}

/// Reads a block, whose label is none that was read.
fn read_block(
    input: &mut Input,
    alloc: Global,
    starts: &mut Vec<u32>,
    steps: &mut Vec<Step>,
) -> Result<(), CodeEnd>
    requires { vec_len steps.old < 4294967295 }
    ensures ok { OnOk result (BlockRead input.old.rest.now starts.old.items steps.old.items input.new.rest.now starts.new.items steps.new.items) }
    ensures err { IfErr result (λ e. NoBlock e (length starts.old.items) input.old.rest.now) }
{
    let label = input.two()? as usize;
    if label < starts.len() {
        return Err(CodeEnd::Bad);
    }
    let length = input.four()?;
    skip_labels(starts, label)?;
    add_start(starts, steps.len())?;
    let before = input.rest.len();
    read_body(input, alloc, 1, steps)?;
    if before - input.rest.len() != length as usize {
        return Err(CodeEnd::Bad);
    }
    Ok(())
}

/// Adds the place where a block begins.
fn add_start(starts: &mut Vec<u32>, place: usize) -> Result<(), AllocError>
    requires { place < 4294967295 }
    ensures { OnOk result (starts.new.items ≡ starts.old.items ++ place ∷ []) }
{
    starts.push(place as u32)?;
    Ok(())
}

/// The code that the bytes spell.
pub fn decode(alloc: Global, bytes: &[u8]) -> Result<Code, CodeEnd>
    ensures found { IfOk result (λ code. Spells code bytes.now) }
    ensures only { IfOk result (λ code. (other : Flat) → Spells other bytes.now → blocks_of other ≡ blocks_of code) }
    ensures bad { IfErr result (λ e. NoCode e bytes.now) }
{
    if bytes.len() >= 0x1_0000_0000 {
        return Err(CodeEnd::Bad);
    }
    let mut input = Input { rest: bytes };
    let count = input.two()?;
    let mut starts = Vec::new(alloc);
    let mut steps = Vec::with_capacity(alloc, bytes.len())?;
    for number in 0..count {
        read_block(&mut input, alloc, &mut starts, &mut steps)?;
    }
    let left = input.rest.len();
    if left > 0 {
        return Err(CodeEnd::Bad);
    }
    match link(alloc, starts, steps)? {
        Some(blocks) => {
            blocks.is_flat();
            Ok(Code::made(blocks))
        }
        None => Err(CodeEnd::Bad),
    }
}
