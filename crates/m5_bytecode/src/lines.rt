//! A code as a listing.

ghost use Rattle.std.specs.Prelude.{◌≡◌, ◌<◌, ◌^◌, ◌++◌, OnOk, IfOk};
ghost use Rattle.m5_machine.specs.Blocks.{HasBody, body_at};
ghost use Rattle.m5_bytecode.specs.Server.{steps_length, IsServerCode};
ghost use Rattle.m5_bytecode.specs.Listing.{body_words, line_of, listing_of};

use crate::code::Code;
use crate::lengths::body_length;
use crate::words::{put, put_instruction_words, put_number, put_operand, put_two_operands};
use m5_machine::blocks::{Blocks, NO_BLOCK};
use m5_machine::step::Step;
use m5_terms::text::Text;
use std::alloc::{AllocError, Global};

/// Adds the instructions and endings of the body that begins at a place.
fn put_body_words(code: &Blocks, start: u32, out: &mut Vec<u8>) -> Result<(), AllocError>
    requires body { HasBody code.now start }
    requires small { steps_length code.now.steps < 2 ^ 32 }
    ensures { OnOk result (out.new.items ≡ out.old.items ++ body_words (body_at code.now start)) }
{
    let mut at = start;
    loop {
        match code.step(at) {
            Step::Fill(instruction) => {
                put_instruction_words(out, instruction)?;
                put(out, b"; ")?;
                at += 1;
            }
            Step::If(slot, second) => {
                put(out, b"if")?;
                put_operand(out, *slot as usize)?;
                put_operand(out, body_length(code, at + 1))?;
                put(out, b"; ")?;
                put_body_words(code, at + 1, out)?;
                put(out, b"; ")?;
                at = *second;
            }
            Step::Go(closure, value) => {
                put_two_operands(out, b"go", *closure, *value)?;
                return Ok(());
            }
            Step::Ask(primitive, argument, next) => {
                put(out, b"ask")?;
                put_operand(out, *primitive as usize)?;
                put_two_operands(out, b"", *argument, *next)?;
                return Ok(());
            }
            Step::Send(world, closure, value) => {
                put(out, b"send")?;
                put_operand(out, *world as usize)?;
                put_two_operands(out, b"", *closure, *value)?;
                return Ok(());
            }
            Step::Done => {
                put(out, b"done")?;
                return Ok(());
            }
        }
    }
}

/// Adds the line of a label, whose block begins at a place.
fn put_line(code: &Blocks, label: usize, start: u32, out: &mut Vec<u8>) -> Result<(), AllocError>
    requires body { HasBody code.now start }
    requires small { steps_length code.now.steps < 2 ^ 32 }
    requires label { label < 2 ^ 32 }
    ensures { OnOk result (out.new.items ≡ out.old.items ++ line_of (record { label = label; body = body_at code.now start })) }
{
    put_number(out, label)?;
    put(out, b": ")?;
    put_body_words(code, start, out)?;
    put(out, b"\n")
}

/// Adds the lines of all labels, in rising order.
fn put_lines(code: &Blocks, out: &mut Vec<u8>) -> Result<(), AllocError>
    requires { IsServerCode code.now }
    ensures { OnOk result (out.new.items ≡ out.old.items ++ listing_of code.now) }
{
    let starts = code.starts();
    for label in 0..starts.len() {
        let start = starts[label];
        if start != NO_BLOCK {
            put_line(code, label, start, out)?;
        }
    }
    Ok(())
}

/// The listing of the code: a line for each label.
pub fn listing(alloc: Global, code: &Code) -> Result<Text, AllocError>
    ensures { IfOk result (λ text. text ≡ listing_of code.now) }
{
    let mut out = Vec::new(alloc);
    put_lines(code.blocks(), &mut out)?;
    Text::of(alloc, out.as_slice())
}
