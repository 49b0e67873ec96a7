//! Values, statements and endings as JavaScript, added to a text.

ghost use Rattle.std.specs.Prelude.{◌≡◌, ◌++◌, ◌<◌, ◌^◌, length, codes, OnOk};
ghost use Rattle.std.specs.List.{flat_map};
ghost use Rattle.std.specs.Fmt.{decimal, signed_decimal};
ghost use Rattle.m5_terms.specs.Quoted.{quotation};
ghost use Rattle.m5_machine.specs.declared.step.Instruction.TheVariants.{Field, Store};
ghost use Rattle.m5_js.specs.Spelling.{slot_text, pair_text, wrapped_text, call_text, after_comma, fields_text, truth_text, value_text, primitive_name, world_name, statement_text, branch_text, go_text, ask_text, send_text};

use m5_machine::decimal::{MOST_DIGITS, put_decimal};
use m5_machine::step::Instruction;
use m5_terms::quoted::put_quoted;
use m5_terms::text::Text;
use std::alloc::{AllocError, Global};

/// Adds these bytes.
pub(crate) fn put(out: &mut Vec<u8>, bytes: &[u8]) -> Result<(), AllocError>
    ensures { OnOk result (out.new.items ≡ out.old.items ++ bytes.now) }
{
    out.extend_from_slice(bytes)
}

/// Adds a number in decimal.
fn put_int(out: &mut Vec<u8>, number: i64) -> Result<(), AllocError>
    ensures { OnOk result (out.new.items ≡ out.old.items ++ signed_decimal number) }
{
    let mut buffer = [0; MOST_DIGITS];
    let start = put_decimal(&mut buffer, number);
    put(out, &buffer[start..])
}

/// Adds a number below 2^32 in decimal.
pub(crate) fn put_number(out: &mut Vec<u8>, number: u32) -> Result<(), AllocError>
    ensures { OnOk result (out.new.items ≡ out.old.items ++ decimal number) }
{
    put_int(out, number as i64)
}

/// Adds the name of a slot.
fn put_slot(out: &mut Vec<u8>, slot: u16) -> Result<(), AllocError>
    ensures { OnOk result (out.new.items ≡ out.old.items ++ slot_text slot) }
{
    match slot {
        0 => put(out, b"e"),
        1 => put(out, b"a"),
        _ => {
            put(out, b"v")?;
            put_number(out, slot as u32 - 2)
        }
    }
}

/// Adds two slots with something between them.
fn put_pair(out: &mut Vec<u8>, first: u16, between: &[u8], second: u16) -> Result<(), AllocError>
    ensures { OnOk result (out.new.items ≡ out.old.items ++ pair_text first between.now second) }
{
    put_slot(out, first)?;
    put(out, between)?;
    put_slot(out, second)
}

/// Adds arithmetic, which wraps at 64 bits.
fn put_wrapped(out: &mut Vec<u8>, first: u16, between: &[u8], second: u16) -> Result<(), AllocError>
    ensures { OnOk result (out.new.items ≡ out.old.items ++ wrapped_text first between.now second) }
{
    put(out, b"BigInt.asIntN(64, ")?;
    put_pair(out, first, between, second)?;
    put(out, b")")
}

/// Adds a call with one slot.
fn put_call(out: &mut Vec<u8>, name: &[u8], slot: u16) -> Result<(), AllocError>
    ensures { OnOk result (out.new.items ≡ out.old.items ++ call_text name.now slot) }
{
    put(out, name)?;
    put(out, b"(")?;
    put_slot(out, slot)?;
    put(out, b")")
}

/// Adds slots, each after a comma.
fn put_after_commas(out: &mut Vec<u8>, slots: &[u16]) -> Result<(), AllocError>
    ensures { OnOk result (out.new.items ≡ out.old.items ++ flat_map after_comma slots.now) }
{
    for slot in slots {
        put(out, b", ")?;
        put_slot(out, *slot)?;
    }
    Ok(())
}

/// Adds slots with commas between them.
fn put_fields(out: &mut Vec<u8>, slots: &[u16]) -> Result<(), AllocError>
    ensures { OnOk result (out.new.items ≡ out.old.items ++ fields_text slots.now) }
{
    match slots.split_first() {
        None => Ok(()),
        Some((first, others)) => {
            put_slot(out, *first)?;
            put_after_commas(out, others)
        }
    }
}

fn put_array(out: &mut Vec<u8>, slots: &[u16]) -> Result<(), AllocError>
    ensures { OnOk result (out.new.items ≡ out.old.items ++ (codes "[" ++ (fields_text slots.now ++ codes "]"))) }
{
    put(out, b"[")?;
    put_fields(out, slots)?;
    put(out, b"]")
}

fn put_field(out: &mut Vec<u8>, slot: u16, place: u16) -> Result<(), AllocError>
    ensures { OnOk result (out.new.items ≡ out.old.items ++ value_text (Field slot place)) }
{
    put_slot(out, slot)?;
    put(out, b"[")?;
    put_number(out, place as u32)?;
    put(out, b"]")
}

fn put_store(out: &mut Vec<u8>, slot: u16, value: u16) -> Result<(), AllocError>
    ensures { OnOk result (out.new.items ≡ out.old.items ++ value_text (Store slot value)) }
{
    put(out, b"store(")?;
    put_pair(out, slot, b", ", value)?;
    put(out, b")")
}

fn put_literal(out: &mut Vec<u8>, number: i64) -> Result<(), AllocError>
    ensures { OnOk result (out.new.items ≡ out.old.items ++ (signed_decimal number ++ codes "n")) }
{
    put_int(out, number)?;
    put(out, b"n")
}

fn put_truth(out: &mut Vec<u8>, truth: bool) -> Result<(), AllocError>
    ensures { OnOk result (out.new.items ≡ out.old.items ++ truth_text truth) }
{
    if truth {
        put(out, b"true")
    } else {
        put(out, b"false")
    }
}

fn put_text(out: &mut Vec<u8>, alloc: Global, bytes: &[u8]) -> Result<(), AllocError>
    ensures { OnOk result (out.new.items ≡ out.old.items ++ quotation bytes.now) }
{
    let text = Text::of(alloc, bytes)?;
    put_quoted(out, &text)
}

/// Adds the value of an instruction.
fn put_value(out: &mut Vec<u8>, alloc: Global, instruction: &Instruction) -> Result<(), AllocError>
    ensures { OnOk result (out.new.items ≡ out.old.items ++ value_text instruction.now) }
{
    match instruction {
        Instruction::Unit => put(out, b"null"),
        Instruction::Bool(truth) => put_truth(out, *truth),
        Instruction::Int(number) => put_literal(out, *number),
        Instruction::Text(bytes) => put_text(out, alloc, bytes.bytes()),
        Instruction::Array(slots) => put_array(out, slots.slots()),
        Instruction::Field(slot, place) => put_field(out, *slot, *place),
        Instruction::Add(first, second) => put_wrapped(out, *first, b" + ", *second),
        Instruction::Sub(first, second) => put_wrapped(out, *first, b" - ", *second),
        Instruction::Mul(first, second) => put_wrapped(out, *first, b" * ", *second),
        Instruction::Quo(first, second) => put_wrapped(out, *first, b" / ", *second),
        Instruction::Cat(first, second) => put_pair(out, *first, b" + ", *second),
        Instruction::Str(slot) => put_call(out, b"String", *slot),
        Instruction::Less(first, second) => put_pair(out, *first, b" < ", *second),
        Instruction::EqualInts(_, _) => Ok(()),
        Instruction::EqualTexts(_, _) => Ok(()),
        Instruction::Same(first, second) => put_pair(out, *first, b" === ", *second),
        Instruction::Cell(slot) => put_call(out, b"cell", *slot),
        Instruction::Load(slot) => put_call(out, b"load", *slot),
        Instruction::Store(slot, value) => put_store(out, *slot, *value),
        Instruction::Spawn(slot) => put_call(out, b"spawn", *slot),
    }
}

/// Adds the constant of a number.
pub(crate) fn put_statement(
    out: &mut Vec<u8>,
    alloc: Global,
    number: u32,
    instruction: &Instruction,
) -> Result<(), AllocError>
    ensures { OnOk result (out.new.items ≡ out.old.items ++ statement_text number instruction.now) }
{
    put(out, b"const v")?;
    put_number(out, number)?;
    put(out, b" = ")?;
    put_value(out, alloc, instruction)?;
    put(out, b"; ")
}

/// Adds the head of a choice.
pub(crate) fn put_branch(out: &mut Vec<u8>, slot: u16) -> Result<(), AllocError>
    ensures { OnOk result (out.new.items ≡ out.old.items ++ branch_text slot) }
{
    put(out, b"if (")?;
    put_slot(out, slot)?;
    put(out, b") { ")
}

pub(crate) fn put_go(out: &mut Vec<u8>, closure: u16, value: u16) -> Result<(), AllocError>
    ensures { OnOk result (out.new.items ≡ out.old.items ++ go_text closure value) }
{
    put(out, b"return go(")?;
    put_pair(out, closure, b", ", value)?;
    put(out, b"); ")
}

/// The name of a primitive that a browser asks.
fn primitive_name(primitive: u8) -> &'static [u8]
    ensures { result.now ≡ primitive_name primitive }
{
    match primitive {
        0 => b"say",
        1 => b"set_text",
        2 => b"get_text",
        3 => b"on",
        _ => b"show",
    }
}

fn world_name(world: u8) -> &'static [u8]
    ensures { result.now ≡ world_name world }
{
    match world {
        0 => b"home",
        1 => b"server",
        _ => b"panel",
    }
}

/// Adds an ask or a send: its head, a name between quotes, and two slots.
fn put_named(
    out: &mut Vec<u8>,
    head: &[u8],
    name: &[u8],
    first: u16,
    second: u16,
) -> Result<(), AllocError>
    ensures { OnOk result (out.new.items
        ≡ out.old.items ++ (head.now ++ (name.now ++ (codes "\", " ++ (pair_text first (codes ", ") second ++ codes "); "))))) }
{
    put(out, head)?;
    put(out, name)?;
    put(out, b"\", ")?;
    put_pair(out, first, b", ", second)?;
    put(out, b"); ")
}

pub(crate) fn put_ask(
    out: &mut Vec<u8>,
    primitive: u8,
    argument: u16,
    next: u16,
) -> Result<(), AllocError>
    ensures { OnOk result (out.new.items ≡ out.old.items ++ ask_text primitive argument next) }
{
    let name = primitive_name(primitive);
    put_named(out, b"return ask(\"", name, argument, next)
}

pub(crate) fn put_send(
    out: &mut Vec<u8>,
    world: u8,
    closure: u16,
    value: u16,
) -> Result<(), AllocError>
    ensures { OnOk result (out.new.items ≡ out.old.items ++ send_text world closure value) }
{
    let name = world_name(world);
    put_named(out, b"return send(\"", name, closure, value)
}
