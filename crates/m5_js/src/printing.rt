//! A browser's code as JavaScript.

ghost use Rattle.std.specs.Prelude.{◌≡◌, ◌+◌, ◌<◌, ◌≤◌, ◌^◌, ◌++◌, length, OnOk, IfOk};
ghost use Rattle.m5_machine.specs.Body.{fills};
ghost use Rattle.m5_machine.specs.Blocks.{BeginsBlock, HasBody, body_at};
ghost use Rattle.m5_js.specs.Page.{IsPageCode};
ghost use Rattle.m5_js.specs.Spelling.{body_text, line_text, page_text};

use crate::js::Js;
use crate::words::{put, put_ask, put_branch, put_go, put_number, put_send, put_statement};
use m5_machine::blocks::{Blocks, NO_BLOCK};
use m5_machine::step::Step;
use m5_terms::text::Text;
use std::alloc::{AllocError, Global};

/// Adds the body that begins at a place, its constants from a number on.
fn put_body(
    code: &Blocks,
    alloc: Global,
    start: u32,
    first: u32,
    out: &mut Vec<u8>,
) -> Result<(), AllocError>
    requires body { HasBody code.now start }
    requires room { first + fills (body_at code.now start) ≤ 65534 }
    ensures { OnOk result (out.new.items ≡ out.old.items ++ body_text first (body_at code.now start)) }
{
    let mut at = start;
    let mut number = first;
    loop {
        match code.step(at) {
            Step::Fill(instruction) => {
                put_statement(out, alloc, number, instruction)?;
                at += 1;
                number += 1;
            }
            Step::If(slot, second) => {
                put_branch(out, *slot)?;
                put_body(code, alloc, at + 1, number, out)?;
                put(out, b"} else { ")?;
                put_body(code, alloc, *second, number, out)?;
                return put(out, b"} ");
            }
            Step::Go(closure, value) => return put_go(out, *closure, *value),
            Step::Ask(primitive, argument, next) => {
                return put_ask(out, *primitive, *argument, *next);
            }
            Step::Send(world, closure, value) => return put_send(out, *world, *closure, *value),
            Step::Done => return put(out, b"return done(); "),
        }
    }
}

/// Adds the line of a label, whose block begins at a place.
fn put_line(
    code: &Blocks,
    alloc: Global,
    label: u32,
    start: u32,
    out: &mut Vec<u8>,
) -> Result<(), AllocError>
    requires { BeginsBlock code.now start }
    ensures { OnOk result (out.new.items ≡ out.old.items ++ line_text (record { label = label; body = body_at code.now start })) }
{
    put(out, b"const L")?;
    put_number(out, label)?;
    put(out, b" = (e, a) => { ")?;
    put_body(code, alloc, start, 0, out)?;
    put(out, b"};\n")
}

/// Adds the lines of all labels, in rising order.
fn put_lines(code: &Blocks, alloc: Global, out: &mut Vec<u8>) -> Result<(), AllocError>
    requires { IsPageCode code.now }
    ensures { OnOk result (out.new.items ≡ out.old.items ++ page_text code.now) }
{
    let starts = code.starts();
    for label in 0..starts.len() {
        let start = starts[label];
        if start != NO_BLOCK {
            put_line(code, alloc, label as u32, start, out)?;
        }
    }
    Ok(())
}

/// The text of the code: a line for each label.
pub fn print(alloc: Global, js: &Js) -> Result<Text, AllocError>
    ensures { IfOk result (λ text. text ≡ page_text js.now) }
{
    let mut out = Vec::new(alloc);
    put_lines(js.blocks(), alloc, &mut out)?;
    Text::of(alloc, out.as_slice())
}
