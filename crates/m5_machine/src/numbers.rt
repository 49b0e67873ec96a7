//! What the instructions make of numbers.

ghost use Rattle.std.specs.Prelude.{◌≡◌};
ghost use Rattle.m5_machine.specs.Table.{sum_of, difference_of, product_of, quotient_of, less_than, equal_ints};

use crate::operand::int_in;
use m5_region::slots::Slots;
use m5_region::value::Value;

pub(crate) fn sum_of(slots: &Slots, first: u16, second: u16) -> Option<Value>
    ensures { result ≡ sum_of slots.now first second }
{
    let first = int_in(slots, first)?;
    let second = int_in(slots, second)?;
    Some(Value::Int(first.wrapping_add(second)))
}

pub(crate) fn difference_of(slots: &Slots, first: u16, second: u16) -> Option<Value>
    ensures { result ≡ difference_of slots.now first second }
{
    let first = int_in(slots, first)?;
    let second = int_in(slots, second)?;
    Some(Value::Int(first.wrapping_sub(second)))
}

pub(crate) fn product_of(slots: &Slots, first: u16, second: u16) -> Option<Value>
    ensures { result ≡ product_of slots.now first second }
{
    let first = int_in(slots, first)?;
    let second = int_in(slots, second)?;
    Some(Value::Int(first.wrapping_mul(second)))
}

/// The quotient rounded towards zero; none by 0.
pub(crate) fn quotient_of(slots: &Slots, first: u16, second: u16) -> Option<Value>
    ensures { result ≡ quotient_of slots.now first second }
{
    let first = int_in(slots, first)?;
    let second = int_in(slots, second)?;
    if second == 0 {
        return None;
    }
    Some(Value::Int(first.wrapping_div(second)))
}

pub(crate) fn less_than(slots: &Slots, first: u16, second: u16) -> Option<Value>
    ensures { result ≡ less_than slots.now first second }
{
    let first = int_in(slots, first)?;
    let second = int_in(slots, second)?;
    Some(Value::Bool(first < second))
}

pub(crate) fn equal_ints(slots: &Slots, first: u16, second: u16) -> Option<Value>
    ensures { result ≡ equal_ints slots.now first second }
{
    let first = int_in(slots, first)?;
    let second = int_in(slots, second)?;
    Some(Value::Bool(first == second))
}
