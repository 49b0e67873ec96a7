//! A code as bytes.

ghost use Rattle.std.specs.Prelude.{◌≡◌, ◌+◌, ◌-◌, ◌<◌, ◌≤◌, ◌^◌, ◌∷◌, ◌++◌, length, take, drop, OnOk, IfOk};
ghost use Rattle.std.specs.Vec.{vec_len};
ghost use Rattle.m5_machine.specs.Blocks.{HasBody, body_at};
ghost use Rattle.std.specs.List.{flat_map};
ghost use Rattle.m5_machine.specs.Labelled.{blocks_of};
ghost use Rattle.m5_bytecode.specs.Spelling.{four, body_bytes, block_bytes, code_bytes};
ghost use Rattle.m5_bytecode.specs.Server.{steps_length, IsServerCode};

use crate::code::{Code, count_labels};
use crate::putting::{put_byte, put_four, put_instruction, put_slot, put_slots, put_two};
use m5_machine::blocks::{Blocks, NO_BLOCK};
use m5_machine::step::Step;
use m5_terms::text::Text;
use std::alloc::{AllocError, Global};

/// Writes how many bytes follow the four at a place over these four.
fn set_length(out: &mut Vec<u8>, from: usize)
    requires within { from + 4 ≤ vec_len out.old }
    requires small { vec_len out.old < from + 4 + 2 ^ 32 }
    ensures { out.new.items
        ≡ take from out.old.items
        ++ (four (vec_len out.old - from - 4) ++ drop (from + 4) out.old.items) }
{
    let length = (out.len() - from - 4) as u32;
    out[from..from + 4].copy_from_slice(&length.to_be_bytes());
}

/// Adds a body, which begins at a place.
fn put_body(code: &Blocks, start: u32, out: &mut Vec<u8>) -> Result<(), AllocError>
    requires body { HasBody code.now start }
    requires small { steps_length code.now.steps < 2 ^ 32 }
    ensures { OnOk result (out.new.items ≡ out.old.items ++ body_bytes (body_at code.now start)) }
{
    let mut at = start;
    loop {
        match code.step(at) {
            Step::Fill(instruction) => {
                put_instruction(out, instruction)?;
                at += 1;
            }
            Step::If(slot, second) => {
                put_slot(out, 0x20, *slot)?;
                let from = out.len();
                put_four(out, 0)?;
                put_body(code, at + 1, out)?;
                set_length(out, from);
                at = *second;
            }
            Step::Go(closure, value) => {
                put_slots(out, 0x21, *closure, *value)?;
                return Ok(());
            }
            Step::Ask(primitive, argument, next) => {
                put_byte(out, 0x22)?;
                put_slots(out, *primitive, *argument, *next)?;
                return Ok(());
            }
            Step::Send(world, closure, value) => {
                put_byte(out, 0x23)?;
                put_slots(out, *world, *closure, *value)?;
                return Ok(());
            }
            Step::Done => {
                put_byte(out, 0x24)?;
                return Ok(());
            }
        }
    }
}

/// Adds the block of a label, which begins at a place.
fn put_block(code: &Blocks, label: u16, start: u32, out: &mut Vec<u8>) -> Result<(), AllocError>
    requires body { HasBody code.now start }
    requires small { steps_length code.now.steps < 2 ^ 32 }
    ensures { OnOk result (out.new.items ≡ out.old.items ++ block_bytes (record { label = label; body = body_at code.now start })) }
{
    put_two(out, label)?;
    let from = out.len();
    put_four(out, 0)?;
    put_body(code, start, out)?;
    set_length(out, from);
    Ok(())
}

/// Adds the blocks of all labels, in rising order.
fn put_blocks(code: &Blocks, out: &mut Vec<u8>) -> Result<(), AllocError>
    requires { IsServerCode code.now }
    ensures { OnOk result (out.new.items ≡ out.old.items ++ flat_map block_bytes (blocks_of code.now)) }
{
    let starts = code.starts();
    for label in 0..starts.len() {
        let start = starts[label];
        if start != NO_BLOCK {
            put_block(code, label as u16, start, out)?;
        }
    }
    Ok(())
}

/// The bytes that spell the code.
pub fn encode(alloc: Global, code: &Code) -> Result<Text, AllocError>
    ensures { IfOk result (λ text. text ≡ code_bytes code.now) }
{
    let blocks = code.blocks();
    let mut out = Vec::new(alloc);
    put_two(&mut out, count_labels(blocks.starts()) as u16)?;
    put_blocks(blocks, &mut out)?;
    Text::of(alloc, out.as_slice())
}
