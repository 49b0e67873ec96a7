//! A server's code.

ghost use Rattle.std.specs.Prelude.{◌≡◌, count_by, IfSome, IfNone};
ghost use Rattle.std.specs.List.{list_all};
ghost use Rattle.m5_bytecode.specs.Server.{server_instruction, server_step, IsServerCode};
ghost use Rattle.m5_bytecode.specs.code.Bodies.{has_block};

use crate::lengths::{is_short, is_small};
use m5_machine::blocks::{Blocks, NO_BLOCK};
use m5_machine::step::{Instruction, Step};
use m5_terms::text::is_text;
use std::marker::Model;

/// The blocks of a server: its steps alone, at most 65,535 blocks, and fewer than 2^32 bytes.
#[derive(Drop)]
pub struct Code {
    blocks: Blocks,
}

impl Model for Code {
    ghost use Rattle.m5_machine.specs.Blocks.{Flat};
    ghost use Rattle.m5_bytecode.specs.Server.{IsServerCode};

    ghost Value = { Flat };

    ghost view = { λ c. c.blocks };

    ghost invariant = { λ c. IsServerCode c.blocks };
}

/// Whether a server has the instruction.
fn is_server_instruction(instruction: &Instruction) -> bool
    ensures { result ≡ server_instruction instruction.now }
{
    match instruction {
        Instruction::Text(bytes) => is_text(bytes.bytes()),
        Instruction::Same(_, _) => false,
        _ => true,
    }
}

/// Whether a server has the step.
fn is_server_step(step: &Step) -> bool
    ensures { result ≡ server_step step.now }
{
    match step {
        Step::Fill(instruction) => is_server_instruction(instruction),
        Step::Ask(primitive, _, _) => 4 <= *primitive && *primitive <= 6,
        Step::Send(world, _, _) => *world == 0 || *world == 2,
        _ => true,
    }
}

/// Whether a server has all these steps.
fn are_server_steps(steps: &[Step]) -> bool
    ensures { result ≡ list_all server_step steps.now }
{
    steps.iter().all(|step| is_server_step(step))
}

/// How many of these places stand for a block.
pub(crate) fn count_labels(starts: &[u32]) -> usize
    ensures { result ≡ count_by has_block starts.now }
{
    starts.iter().filter(|start| **start != NO_BLOCK).count()
}

impl Code {
    /// The code of these blocks, if they are a server's.
    pub fn of(blocks: Blocks) -> Option<Code>
        ensures code { IfSome result (λ code. code ≡ blocks) }
        ensures none { IfNone result (IsServerCode blocks → ⊥) }
    {
        blocks.is_flat();
        if !are_server_steps(blocks.steps()) {
            return None;
        }
        if !is_small(blocks.steps()) {
            return None;
        }
        if blocks.starts().len() > 65536 {
            return None;
        }
        if count_labels(blocks.starts()) > 65535 {
            return None;
        }
        if !is_short(&blocks) {
            return None;
        }
        Some(Code { blocks })
    }

    /// The code of blocks that are a server's.
    pub(crate) fn made(blocks: Blocks) -> Code
        requires { IsServerCode blocks }
        ensures { result ≡ blocks }
    {
        Code { blocks }
    }

    /// The blocks of the code.
    pub fn blocks(&self) -> &Blocks
        ensures same { result.now ≡ self.now }
        ensures server { IsServerCode result.now }
    {
        &self.blocks
    }
}
