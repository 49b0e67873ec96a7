//! How many bytes spell a step, a body and a code.

ghost use Rattle.std.specs.Prelude.{◌≡◌, ◌<◌, ◌^◌, length, nat_lt};
ghost use Rattle.m5_machine.specs.Blocks.{HasBody, body_at, IsFlat};
ghost use Rattle.m5_bytecode.specs.Server.{step_length, steps_length};
ghost use Rattle.m5_bytecode.specs.Spelling.{instruction_bytes, body_bytes, code_bytes};

use m5_machine::blocks::{Blocks, NO_BLOCK};
use m5_machine::step::{Instruction, Step};

/// How many bytes the instruction's spelling has.
fn instruction_length(instruction: &Instruction) -> usize
    ensures { result ≡ length (instruction_bytes instruction.now) }
{
    match instruction {
        Instruction::Unit => 1,
        Instruction::Bool(_) => 2,
        Instruction::Int(_) => 9,
        Instruction::Text(bytes) => 5 + bytes.bytes().len(),
        Instruction::Array(operands) => 3 + 2 * operands.slots().len(),
        Instruction::Field(_, _) => 5,
        Instruction::Add(_, _) => 5,
        Instruction::Sub(_, _) => 5,
        Instruction::Mul(_, _) => 5,
        Instruction::Quo(_, _) => 5,
        Instruction::Cat(_, _) => 5,
        Instruction::Str(_) => 3,
        Instruction::Less(_, _) => 5,
        Instruction::EqualInts(_, _) => 5,
        Instruction::EqualTexts(_, _) => 5,
        Instruction::Same(_, _) => 0,
        Instruction::Cell(_) => 3,
        Instruction::Load(_) => 3,
        Instruction::Store(_, _) => 5,
        Instruction::Spawn(_) => 3,
    }
}

/// How many bytes the step's own spelling has.
fn step_length(step: &Step) -> usize
    ensures { result ≡ step_length step.now }
{
    match step {
        Step::Fill(instruction) => instruction_length(instruction),
        Step::If(_, _) => 7,
        Step::Go(_, _) => 5,
        Step::Ask(_, _, _) => 6,
        Step::Send(_, _, _) => 6,
        Step::Done => 1,
    }
}

/// Whether the steps' spellings have fewer than 2^32 bytes in all.
pub(crate) fn is_small(steps: &[Step]) -> bool
    ensures { result ≡ nat_lt (steps_length steps.now) (2 ^ 32) }
{
    let mut total: usize = 0;
    for step in steps {
        let length = step_length(step);
        if length >= 0x1_0000_0000 - total {
            return false;
        }
        total += length;
    }
    true
}

/// How many bytes spell the body that begins at a place.
pub(crate) fn body_length(code: &Blocks, start: u32) -> usize
    requires body { HasBody code.now start }
    requires small { steps_length code.now.steps < 2 ^ 32 }
    ensures { result ≡ length (body_bytes (body_at code.now start)) }
{
    let mut at = start;
    let mut total: usize = 0;
    loop {
        match code.step(at) {
            Step::Fill(instruction) => {
                total += instruction_length(instruction);
                at += 1;
            }
            Step::If(_, second) => {
                total += 7 + body_length(code, at + 1);
                at = *second;
            }
            Step::Go(_, _) => return total + 5,
            Step::Ask(_, _, _) => return total + 6,
            Step::Send(_, _, _) => return total + 6,
            Step::Done => return total + 1,
        }
    }
}

/// Whether the code's spelling has fewer than 2^32 bytes.
pub(crate) fn is_short(code: &Blocks) -> bool
    requires flat { IsFlat code.now }
    requires small { steps_length code.now.steps < 2 ^ 32 }
    ensures { result ≡ nat_lt (length (code_bytes code.now)) (2 ^ 32) }
{
    let starts = code.starts();
    let mut total: usize = 2;
    for label in 0..starts.len() {
        let start = starts[label];
        if start != NO_BLOCK {
            let length = 6 + body_length(code, start);
            if length >= 0x1_0000_0000 - total {
                return false;
            }
            total += length;
        }
    }
    true
}
