//! Steps at the front of a code's bytes.

ghost use Rattle.std.specs.Prelude.{◌≡◌, ◌*◌, ◌∷◌, ◌++◌, length, All, IfOk, IfErr, IfSome};
ghost use Rattle.std.specs.Vec.{vec_len};
ghost use Rattle.std.specs.List.{flat_map};
ghost use Rattle.m5_machine.specs.Numbers.{IsSlot};
ghost use Rattle.m5_bytecode.specs.Spelling.{two};
ghost use Rattle.m5_bytecode.specs.code.Bodies.{StepRead, IsServerStep, step_bytes};
ghost use Rattle.m5_bytecode.specs.code.Reading.{Refuses, truth_in, number_in, text_in, array_in, one_step, one_in, two_step, pair_in, branch_in, ask_in, send_in, step_in};

use crate::input::{CodeEnd, Input};
use m5_machine::listed::{Operands, TextBytes};
use m5_machine::step::{Instruction, Step};
use m5_terms::text::is_text;
use std::alloc::{AllocError, Global};

/// Numbers of two bytes each.
fn slots_of(alloc: Global, bytes: &[u8], count: usize) -> Result<Vec<u16>, AllocError>
    requires { length bytes.now ≡ 2 * count }
    ensures spelled { IfOk result (λ slots. flat_map two slots.items ≡ bytes.now) }
    ensures count { IfOk result (λ slots. vec_len slots ≡ count) }
    ensures slots { IfOk result (λ slots. All IsSlot slots.items) }
{
    let mut slots = Vec::with_capacity(alloc, count)?;
    for place in 0..count {
        let slot = u16::from_be_bytes([bytes[2 * place], bytes[2 * place + 1]]);
        slots.push(slot)?;
    }
    Ok(slots)
}

/// The step of a first byte that is followed by one slot.
fn one_step(first: u8, slot: u16) -> Option<Step>
    ensures value { result ≡ one_step first slot }
    ensures spelled { IfSome result (λ s. step_bytes s ≡ first ∷ two slot) }
    ensures good { IfSome result IsServerStep }
{
    match first {
        0x0b => Some(Step::Fill(Instruction::Str(slot))),
        0x10 => Some(Step::Fill(Instruction::Cell(slot))),
        0x11 => Some(Step::Fill(Instruction::Load(slot))),
        0x13 => Some(Step::Fill(Instruction::Spawn(slot))),
        _ => None,
    }
}

/// The step of a first byte that is followed by two slots, or by a slot and a place.
fn two_step(first: u8, slot: u16, second: u16) -> Option<Step>
    ensures value { result ≡ two_step first slot second }
    ensures spelled { IfSome result (λ s. step_bytes s ≡ first ∷ (two slot ++ two second)) }
    ensures good { IfSome result IsServerStep }
{
    match first {
        0x05 => Some(Step::Fill(Instruction::Field(slot, second))),
        0x06 => Some(Step::Fill(Instruction::Add(slot, second))),
        0x07 => Some(Step::Fill(Instruction::Sub(slot, second))),
        0x08 => Some(Step::Fill(Instruction::Mul(slot, second))),
        0x09 => Some(Step::Fill(Instruction::Quo(slot, second))),
        0x0a => Some(Step::Fill(Instruction::Cat(slot, second))),
        0x0c => Some(Step::Fill(Instruction::EqualInts(slot, second))),
        0x0d => Some(Step::Fill(Instruction::Less(slot, second))),
        0x0e => Some(Step::Fill(Instruction::EqualTexts(slot, second))),
        0x12 => Some(Step::Fill(Instruction::Store(slot, second))),
        0x21 => Some(Step::Go(slot, second)),
        _ => None,
    }
}

impl<'a> Input<'a> {
    /// What follows the first byte of a truth value.
    fn truth(&mut self) -> Result<Step, CodeEnd>
        ensures ok { IfOk result (λ s. StepRead (0x01 ∷ self.old.rest.now) s self.new.rest.now) }
        ensures err { IfErr result (λ e. Refuses e (truth_in self.old.rest.now)) }
    {
        match self.byte()? {
            0 => Ok(Step::Fill(Instruction::Bool(false))),
            1 => Ok(Step::Fill(Instruction::Bool(true))),
            _ => Err(CodeEnd::Bad),
        }
    }

    fn number(&mut self) -> Result<Step, CodeEnd>
        ensures ok { IfOk result (λ s. StepRead (0x02 ∷ self.old.rest.now) s self.new.rest.now) }
        ensures err { IfErr result (λ e. Refuses e (number_in self.old.rest.now)) }
    {
        let b = self.take(8)?;
        let bits = u64::from_be_bytes([b[0], b[1], b[2], b[3], b[4], b[5], b[6], b[7]]);
        Ok(Step::Fill(Instruction::Int(bits.cast_signed())))
    }

    fn text(&mut self, alloc: Global) -> Result<Step, CodeEnd>
        ensures ok { IfOk result (λ s. StepRead (0x03 ∷ self.old.rest.now) s self.new.rest.now) }
        ensures err { IfErr result (λ e. Refuses e (text_in self.old.rest.now)) }
    {
        let count = self.four()?;
        let bytes = self.take(count as usize)?;
        if !is_text(bytes) {
            return Err(CodeEnd::Bad);
        }
        let held = Vec::from_slice(alloc, bytes)?;
        Ok(Step::Fill(Instruction::Text(TextBytes::of(held))))
    }

    fn array(&mut self, alloc: Global) -> Result<Step, CodeEnd>
        ensures ok { IfOk result (λ s. StepRead (0x04 ∷ self.old.rest.now) s self.new.rest.now) }
        ensures err { IfErr result (λ e. Refuses e (array_in self.old.rest.now)) }
    {
        let count = self.two()?;
        if count == 0 {
            return Err(CodeEnd::Bad);
        }
        let bytes = self.take(2 * count as usize)?;
        let slots = slots_of(alloc, bytes, count as usize)?;
        Ok(Step::Fill(Instruction::Array(Operands::of(slots))))
    }

    fn one_slot(&mut self, first: u8) -> Result<Step, CodeEnd>
        ensures ok { IfOk result (λ s. StepRead (first ∷ self.old.rest.now) s self.new.rest.now) }
        ensures err { IfErr result (λ e. Refuses e (one_in first self.old.rest.now)) }
    {
        let slot = self.two()?;
        match one_step(first, slot) {
            Some(step) => Ok(step),
            None => Err(CodeEnd::Bad),
        }
    }

    fn two_slots(&mut self, first: u8) -> Result<Step, CodeEnd>
        ensures ok { IfOk result (λ s. StepRead (first ∷ self.old.rest.now) s self.new.rest.now) }
        ensures err { IfErr result (λ e. Refuses e (pair_in first self.old.rest.now)) }
    {
        let slot = self.two()?;
        let second = self.two()?;
        match two_step(first, slot, second) {
            Some(step) => Ok(step),
            None => Err(CodeEnd::Bad),
        }
    }

    /// An `If`, with the length of its first body as its place.
    fn branch(&mut self) -> Result<Step, CodeEnd>
        ensures ok { IfOk result (λ s. StepRead (0x20 ∷ self.old.rest.now) s self.new.rest.now) }
        ensures err { IfErr result (λ e. Refuses e (branch_in self.old.rest.now)) }
    {
        let slot = self.two()?;
        let length = self.four()?;
        Ok(Step::If(slot, length))
    }

    fn ask(&mut self) -> Result<Step, CodeEnd>
        ensures ok { IfOk result (λ s. StepRead (0x22 ∷ self.old.rest.now) s self.new.rest.now) }
        ensures err { IfErr result (λ e. Refuses e (ask_in self.old.rest.now)) }
    {
        let primitive = self.byte()?;
        if !(4 <= primitive && primitive <= 6) {
            return Err(CodeEnd::Bad);
        }
        let argument = self.two()?;
        let next = self.two()?;
        Ok(Step::Ask(primitive, argument, next))
    }

    fn send(&mut self) -> Result<Step, CodeEnd>
        ensures ok { IfOk result (λ s. StepRead (0x23 ∷ self.old.rest.now) s self.new.rest.now) }
        ensures err { IfErr result (λ e. Refuses e (send_in self.old.rest.now)) }
    {
        let world = self.byte()?;
        if !(world == 0 || world == 2) {
            return Err(CodeEnd::Bad);
        }
        let closure = self.two()?;
        let value = self.two()?;
        Ok(Step::Send(world, closure, value))
    }

    #[tactic(auto, unfolding(crate::specs::code::Reading::step_in))]
    /// The next step. The length of an `If`'s first body stands as its place.
    pub(crate) fn step(&mut self, alloc: Global) -> Result<Step, CodeEnd>
        ensures ok { IfOk result (λ s. StepRead self.old.rest.now s self.new.rest.now) }
        ensures err { IfErr result (λ e. Refuses e (step_in self.old.rest.now)) }
    {
        let first = self.byte()?;
        match first {
            0x00 => Ok(Step::Fill(Instruction::Unit)),
            0x01 => self.truth(),
            0x02 => self.number(),
            0x03 => self.text(alloc),
            0x04 => self.array(alloc),
            0x0b => self.one_slot(first),
            0x10 => self.one_slot(first),
            0x11 => self.one_slot(first),
            0x13 => self.one_slot(first),
            0x20 => self.branch(),
            0x22 => self.ask(),
            0x23 => self.send(),
            0x24 => Ok(Step::Done),
            _ => self.two_slots(first),
        }
    }
}
