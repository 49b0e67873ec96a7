//! Bytes of instructions and endings, added to a list.

ghost use Rattle.std.specs.Prelude.{◌≡◌, ◌∷◌, [], ◌++◌, ◌<◌, ◌^◌, length, OnOk};
ghost use Rattle.m5_bytecode.specs.Spelling.{two, four, truth_byte, instruction_bytes};
ghost use Rattle.std.specs.Int.{w64, to_be_bytes, cast_unsigned};
ghost use Rattle.std.specs.List.{flat_map};

use m5_machine::step::Instruction;
use std::alloc::AllocError;

/// Adds a byte.
pub(crate) fn put_byte(out: &mut Vec<u8>, byte: u8) -> Result<(), AllocError>
    ensures { OnOk result (out.new.items ≡ out.old.items ++ byte ∷ []) }
{
    out.push(byte)?;
    Ok(())
}

/// Adds a number of two bytes.
pub(crate) fn put_two(out: &mut Vec<u8>, number: u16) -> Result<(), AllocError>
    ensures { OnOk result (out.new.items ≡ out.old.items ++ two number) }
{
    out.extend_from_slice(&number.to_be_bytes())
}

/// Adds a number of four bytes.
pub(crate) fn put_four(out: &mut Vec<u8>, number: u32) -> Result<(), AllocError>
    ensures { OnOk result (out.new.items ≡ out.old.items ++ four number) }
{
    out.extend_from_slice(&number.to_be_bytes())
}

/// Adds a byte and a slot.
pub(crate) fn put_slot(out: &mut Vec<u8>, byte: u8, slot: u16) -> Result<(), AllocError>
    ensures { OnOk result (out.new.items ≡ out.old.items ++ (byte ∷ two slot)) }
{
    out.push(byte)?;
    put_two(out, slot)
}

/// Adds a byte and two slots.
pub(crate) fn put_slots(
    out: &mut Vec<u8>,
    byte: u8,
    first: u16,
    second: u16,
) -> Result<(), AllocError>
    ensures { OnOk result (out.new.items ≡ out.old.items ++ (byte ∷ (two first ++ two second))) }
{
    out.push(byte)?;
    put_two(out, first)?;
    put_two(out, second)
}

/// Adds the slots of an array's fields.
fn put_operands(out: &mut Vec<u8>, operands: &[u16]) -> Result<(), AllocError>
    ensures { OnOk result (out.new.items ≡ out.old.items ++ flat_map two operands.now) }
{
    for slot in operands {
        put_two(out, *slot)?;
    }
    Ok(())
}

/// Adds a text of fewer than 2^32 bytes.
fn put_text(out: &mut Vec<u8>, bytes: &[u8]) -> Result<(), AllocError>
    requires { length bytes.now < 2 ^ 32 }
    ensures { OnOk result (out.new.items
        ≡ out.old.items ++ (0x03 ∷ (four (length bytes.now) ++ bytes.now))) }
{
    out.push(0x03)?;
    put_four(out, bytes.len() as u32)?;
    out.extend_from_slice(bytes)
}

/// Adds an array's instruction.
fn put_array(out: &mut Vec<u8>, operands: &[u16]) -> Result<(), AllocError>
    requires { length operands.now < 2 ^ 16 }
    ensures { OnOk result (out.new.items
        ≡ out.old.items ++ (0x04 ∷ (two (length operands.now) ++ flat_map two operands.now))) }
{
    out.push(0x04)?;
    put_two(out, operands.len() as u16)?;
    put_operands(out, operands)
}

/// Adds a number's instruction.
fn put_int(out: &mut Vec<u8>, number: i64) -> Result<(), AllocError>
    ensures { OnOk result (out.new.items
        ≡ out.old.items ++ (0x02 ∷ to_be_bytes w64 (cast_unsigned w64 number))) }
{
    out.push(0x02)?;
    out.extend_from_slice(&number.cast_unsigned().to_be_bytes())
}

/// Adds a truth value's instruction.
fn put_bool(out: &mut Vec<u8>, truth: bool) -> Result<(), AllocError>
    ensures { OnOk result (out.new.items ≡ out.old.items ++ (0x01 ∷ truth_byte truth ∷ [])) }
{
    put_byte(out, 0x01)?;
    put_byte(out, truth as u8)
}

/// Adds an instruction of a server.
pub(crate) fn put_instruction(
    out: &mut Vec<u8>,
    instruction: &Instruction,
) -> Result<(), AllocError>
    requires { length (instruction_bytes instruction.now) < 2 ^ 32 }
    ensures { OnOk result (out.new.items ≡ out.old.items ++ instruction_bytes instruction.now) }
{
    match instruction {
        Instruction::Unit => put_byte(out, 0x00),
        Instruction::Bool(truth) => put_bool(out, *truth),
        Instruction::Int(number) => put_int(out, *number),
        Instruction::Text(bytes) => put_text(out, bytes.bytes()),
        Instruction::Array(operands) => put_array(out, operands.slots()),
        Instruction::Field(slot, place) => put_slots(out, 0x05, *slot, *place),
        Instruction::Add(first, second) => put_slots(out, 0x06, *first, *second),
        Instruction::Sub(first, second) => put_slots(out, 0x07, *first, *second),
        Instruction::Mul(first, second) => put_slots(out, 0x08, *first, *second),
        Instruction::Quo(first, second) => put_slots(out, 0x09, *first, *second),
        Instruction::Cat(first, second) => put_slots(out, 0x0a, *first, *second),
        Instruction::Str(slot) => put_slot(out, 0x0b, *slot),
        Instruction::EqualInts(first, second) => put_slots(out, 0x0c, *first, *second),
        Instruction::Less(first, second) => put_slots(out, 0x0d, *first, *second),
        Instruction::EqualTexts(first, second) => put_slots(out, 0x0e, *first, *second),
        Instruction::Same(_, _) => Ok(()),
        Instruction::Cell(slot) => put_slot(out, 0x10, *slot),
        Instruction::Load(slot) => put_slot(out, 0x11, *slot),
        Instruction::Store(slot, value) => put_slots(out, 0x12, *slot, *value),
        Instruction::Spawn(slot) => put_slot(out, 0x13, *slot),
    }
}
