//! Names and operands of instructions, added to a listing.

ghost use Rattle.std.specs.Prelude.{◌≡◌, ◌∷◌, [], ◌++◌, ◌<◌, ◌^◌, length, codes, OnOk};
ghost use Rattle.std.specs.Fmt.{decimal, signed_decimal};
ghost use Rattle.m5_bytecode.specs.Spelling.{truth_byte, instruction_bytes};
ghost use Rattle.m5_bytecode.specs.Listing.{operand, operands, instruction_words};

use m5_machine::decimal::{MOST_DIGITS, put_decimal};
use m5_machine::step::Instruction;
use std::alloc::AllocError;

/// Adds these bytes.
pub(crate) fn put(out: &mut Vec<u8>, bytes: &[u8]) -> Result<(), AllocError>
    ensures { OnOk result (out.new.items ≡ out.old.items ++ bytes.now) }
{
    out.extend_from_slice(bytes)
}

/// Adds a number in decimal.
pub(crate) fn put_int(out: &mut Vec<u8>, number: i64) -> Result<(), AllocError>
    ensures { OnOk result (out.new.items ≡ out.old.items ++ signed_decimal number) }
{
    let mut buffer = [0; MOST_DIGITS];
    let start = put_decimal(&mut buffer, number);
    put(out, &buffer[start..])
}

/// Adds a number below 2^32 in decimal.
pub(crate) fn put_number(out: &mut Vec<u8>, number: usize) -> Result<(), AllocError>
    requires { number < 2 ^ 32 }
    ensures { OnOk result (out.new.items ≡ out.old.items ++ decimal number) }
{
    put_int(out, number as i64)
}

/// Adds a blank and a number below 2^32.
pub(crate) fn put_operand(out: &mut Vec<u8>, number: usize) -> Result<(), AllocError>
    requires { number < 2 ^ 32 }
    ensures { OnOk result (out.new.items ≡ out.old.items ++ operand number) }
{
    put(out, b" ")?;
    put_number(out, number)
}

/// Adds a name and an operand.
fn put_one(out: &mut Vec<u8>, name: &[u8], first: u16) -> Result<(), AllocError>
    ensures { OnOk result (out.new.items ≡ out.old.items ++ (name.now ++ operand first)) }
{
    put(out, name)?;
    put_operand(out, first as usize)
}

/// Adds a name and two operands.
pub(crate) fn put_two_operands(
    out: &mut Vec<u8>,
    name: &[u8],
    first: u16,
    second: u16,
) -> Result<(), AllocError>
    ensures { OnOk result (out.new.items ≡ out.old.items ++ (name.now ++ (operand first ++ operand second))) }
{
    put(out, name)?;
    put_operand(out, first as usize)?;
    put_operand(out, second as usize)
}

fn put_bytes(out: &mut Vec<u8>, bytes: &[u8]) -> Result<(), AllocError>
    ensures { OnOk result (out.new.items ≡ out.old.items ++ operands bytes.now) }
{
    for byte in bytes {
        put_operand(out, *byte as usize)?;
    }
    Ok(())
}

fn put_slots(out: &mut Vec<u8>, slots: &[u16]) -> Result<(), AllocError>
    ensures { OnOk result (out.new.items ≡ out.old.items ++ operands slots.now) }
{
    for slot in slots {
        put_operand(out, *slot as usize)?;
    }
    Ok(())
}

/// Adds a text's bytes, after how many they are.
fn put_text(out: &mut Vec<u8>, bytes: &[u8]) -> Result<(), AllocError>
    requires { length bytes.now < 2 ^ 32 }
    ensures { OnOk result (out.new.items
        ≡ out.old.items ++ (codes "text" ++ (operand (length bytes.now) ++ operands bytes.now))) }
{
    put(out, b"text")?;
    put_operand(out, bytes.len())?;
    put_bytes(out, bytes)
}

/// Adds an array's slots, after how many they are.
fn put_array(out: &mut Vec<u8>, slots: &[u16]) -> Result<(), AllocError>
    requires { length slots.now < 2 ^ 16 }
    ensures { OnOk result (out.new.items
        ≡ out.old.items ++ (codes "array" ++ (operand (length slots.now) ++ operands slots.now))) }
{
    put(out, b"array")?;
    put_operand(out, slots.len())?;
    put_slots(out, slots)
}

fn put_literal(out: &mut Vec<u8>, number: i64) -> Result<(), AllocError>
    ensures { OnOk result (out.new.items ≡ out.old.items ++ (codes "int " ++ signed_decimal number)) }
{
    put(out, b"int ")?;
    put_int(out, number)
}

fn put_truth(out: &mut Vec<u8>, truth: bool) -> Result<(), AllocError>
    ensures { OnOk result (out.new.items ≡ out.old.items ++ (codes "bool" ++ operand (truth_byte truth))) }
{
    put(out, b"bool")?;
    put_operand(out, truth as usize)
}

/// Adds an instruction of a server.
pub(crate) fn put_instruction_words(
    out: &mut Vec<u8>,
    instruction: &Instruction,
) -> Result<(), AllocError>
    requires { length (instruction_bytes instruction.now) < 2 ^ 32 }
    ensures { OnOk result (out.new.items ≡ out.old.items ++ instruction_words instruction.now) }
{
    match instruction {
        Instruction::Unit => put(out, b"unit"),
        Instruction::Bool(truth) => put_truth(out, *truth),
        Instruction::Int(number) => put_literal(out, *number),
        Instruction::Text(bytes) => put_text(out, bytes.bytes()),
        Instruction::Array(slots) => put_array(out, slots.slots()),
        Instruction::Field(slot, place) => put_two_operands(out, b"field", *slot, *place),
        Instruction::Add(first, second) => put_two_operands(out, b"add", *first, *second),
        Instruction::Sub(first, second) => put_two_operands(out, b"sub", *first, *second),
        Instruction::Mul(first, second) => put_two_operands(out, b"mul", *first, *second),
        Instruction::Quo(first, second) => put_two_operands(out, b"quo", *first, *second),
        Instruction::Cat(first, second) => put_two_operands(out, b"cat", *first, *second),
        Instruction::Str(slot) => put_one(out, b"str", *slot),
        Instruction::EqualInts(first, second) => put_two_operands(out, b"eqi", *first, *second),
        Instruction::Less(first, second) => put_two_operands(out, b"lti", *first, *second),
        Instruction::EqualTexts(first, second) => put_two_operands(out, b"eqt", *first, *second),
        Instruction::Same(_, _) => Ok(()),
        Instruction::Cell(slot) => put_one(out, b"cell", *slot),
        Instruction::Load(slot) => put_one(out, b"load", *slot),
        Instruction::Store(slot, value) => put_two_operands(out, b"store", *slot, *value),
        Instruction::Spawn(slot) => put_one(out, b"spawn", *slot),
    }
}
