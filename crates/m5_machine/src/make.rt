//! The table of instructions as code.

ghost use Rattle.std.specs.Prelude.{◌≡◌};
ghost use Rattle.m5_machine.specs.code.Running.{IsRunning};
ghost use Rattle.m5_machine.specs.Table.{made, value_or_none, GivesFit};

use crate::arrays::{new_array, part};
use crate::blocks::Blocks;
use crate::cells::{load, new_cell, new_thread, set_cell};
use crate::made::Made;
use crate::numbers::{difference_of, equal_ints, less_than, product_of, quotient_of, sum_of};
use crate::step::Instruction;
use crate::texts::{equal_texts, equal_values, join, new_text, print};
use m5_region::bench::Bench;
use m5_region::value::Value;

fn given(value: Option<Value>) -> Made
    ensures { result ≡ value_or_none value }
{
    match value {
        Some(value) => Made::Gives(value),
        None => Made::NoCase,
    }
}

/// What an instruction makes of the bench.
pub(crate) fn make(code: &Blocks, instruction: &Instruction, bench: &mut Bench) -> Made
    requires { IsRunning code.now bench.old }
    ensures made { made code.now instruction.now bench.old ≡ (result, bench.new) }
    ensures running { IsRunning code.now bench.new }
    ensures slots { bench.new.slots ≡ bench.old.slots }
    ensures fuel { bench.new.fuel ≡ bench.old.fuel }
    ensures value { GivesFit bench.new.region.objects result }
{
    let slots = &bench.slots;
    match instruction {
        Instruction::Unit => Made::Gives(Value::Null),
        Instruction::Bool(truth) => Made::Gives(Value::Bool(*truth)),
        Instruction::Int(number) => Made::Gives(Value::Int(*number)),
        Instruction::Text(bytes) => new_text(&mut bench.region, bytes.bytes()),
        Instruction::Array(operands) => new_array(&mut bench.region, slots, operands.slots()),
        Instruction::Field(slot, place) => given(part(&bench.region, slots, *slot, *place)),
        Instruction::Add(first, second) => given(sum_of(slots, *first, *second)),
        Instruction::Sub(first, second) => given(difference_of(slots, *first, *second)),
        Instruction::Mul(first, second) => given(product_of(slots, *first, *second)),
        Instruction::Quo(first, second) => given(quotient_of(slots, *first, *second)),
        Instruction::Cat(first, second) => join(&mut bench.region, slots, *first, *second),
        Instruction::Str(slot) => print(&mut bench.region, slots, *slot),
        Instruction::Less(first, second) => given(less_than(slots, *first, *second)),
        Instruction::EqualInts(first, second) => given(equal_ints(slots, *first, *second)),
        Instruction::EqualTexts(first, second) => {
            given(equal_texts(&bench.region, slots, *first, *second))
        }
        Instruction::Same(first, second) => {
            given(equal_values(&bench.region, slots, *first, *second))
        }
        Instruction::Cell(slot) => new_cell(&mut bench.cells, slots, *slot),
        Instruction::Load(slot) => given(load(&bench.cells, slots, *slot)),
        Instruction::Store(slot, value) => set_cell(&mut bench.cells, slots, *slot, *value),
        Instruction::Spawn(slot) => {
            new_thread(code, &bench.region, &mut bench.threads, slots, *slot)
        }
    }
}
