//! A browser's code.

ghost use Rattle.std.specs.Prelude.{◌≡◌, IfSome, IfNone};
ghost use Rattle.std.specs.List.{list_all};
ghost use Rattle.m5_js.specs.Page.{page_instruction, page_step, IsPageCode};

use m5_machine::blocks::Blocks;
use m5_machine::step::{Instruction, Step};
use m5_terms::text::is_text;
use std::marker::Model;

/// The blocks of a home or a panel: steps that have a spelling as JavaScript.
#[derive(Drop)]
pub struct Js {
    blocks: Blocks,
}

impl Model for Js {
    ghost use Rattle.m5_machine.specs.Blocks.{Flat};
    ghost use Rattle.m5_js.specs.Page.{IsPageCode};

    ghost Value = { Flat };

    ghost view = { λ c. c.blocks };

    ghost invariant = { λ c. IsPageCode c.blocks };
}

/// Whether a browser has the instruction.
fn is_page_instruction(instruction: &Instruction) -> bool
    ensures { result ≡ page_instruction instruction.now }
{
    match instruction {
        Instruction::Int(number) => 0 <= *number,
        Instruction::Text(bytes) => is_text(bytes.bytes()),
        Instruction::Field(_, place) => *place <= 65534,
        Instruction::EqualInts(_, _) => false,
        Instruction::EqualTexts(_, _) => false,
        _ => true,
    }
}

/// Whether a browser has the step.
pub(crate) fn is_page_step(step: &Step) -> bool
    ensures { result ≡ page_step step.now }
{
    match step {
        Step::Fill(instruction) => is_page_instruction(instruction),
        Step::Ask(primitive, _, _) => *primitive <= 3 || *primitive == 7,
        Step::Send(world, _, _) => *world <= 2,
        _ => true,
    }
}

/// Whether a browser has all these steps.
fn are_page_steps(steps: &[Step]) -> bool
    ensures { result ≡ list_all page_step steps.now }
{
    steps.iter().all(|step| is_page_step(step))
}

impl Js {
    /// The code of these blocks, if they are a browser's.
    pub fn of(blocks: Blocks) -> Option<Js>
        ensures code { IfSome result (λ js. js ≡ blocks) }
        ensures none { IfNone result (IsPageCode blocks → ⊥) }
    {
        blocks.is_flat();
        if !are_page_steps(blocks.steps()) {
            return None;
        }
        if blocks.starts().len() > 65536 {
            return None;
        }
        Some(Js { blocks })
    }

    /// The code of blocks that are a browser's.
    pub(crate) fn made(blocks: Blocks) -> Js
        requires { IsPageCode blocks }
        ensures { result ≡ blocks }
    {
        Js { blocks }
    }

    /// The blocks of the code.
    pub fn blocks(&self) -> &Blocks
        ensures same { result.now ≡ self.now }
        ensures page { IsPageCode result.now }
    {
        &self.blocks
    }
}
