//! What a step can only be, by the bytes at the front of its text. Whether the text is the step's is
//! seen by printing it.

ghost use Rattle.std.specs.Prelude.{◌≡◌, ◌≤◌, ◌<◌, drop, length, All, Some, None, IfOk, IfSome, MatchOption};
ghost use Rattle.m5_machine.specs.Numbers.{IsSlot, IsInstruction, IsStep};
ghost use Rattle.std.specs.List.{take_while};
ghost use Rattle.m5_terms.specs.Decimal.{is_digit};
ghost use Rattle.m5_js.specs.code.Guess.{number_in, slot_in, one_in, two_in, arithmetic, comparison, wrapped_in, slot_first_in, literal_in, fields_in, array_of, call_in, store_in, label_in, quoted_value, value_in};
ghost use Rattle.m5_js.specs.code.GuessedStep.{statement_in, branch_in, go_in, ask_with, send_with, ask_in, send_in, ending_in, step_in};
ghost use Rattle.m5_terms.specs.Quoted.{quoted};

use m5_machine::listed::{Operands, TextBytes};
use m5_machine::step::{Instruction, Step};
use m5_terms::decimal::{is_digit, value_within};
use m5_terms::quoted::{Quoted, read_quoted};
use m5_terms::text::byte_at;
use std::alloc::{AllocError, Global};

/// What follows so many bytes.
fn skip(bytes: &[u8], count: usize) -> &[u8]
    ensures { result.now ≡ drop count bytes.now }
{
    if count < bytes.len() {
        &bytes[count..]
    } else {
        &bytes[bytes.len()..]
    }
}

/// How many digits stand at the front.
fn digits_length(bytes: &[u8]) -> usize
    ensures { result ≡ length (take_while is_digit bytes.now) }
{
    bytes.iter().take_while(|byte| is_digit(**byte)).count()
}

/// A text of which the front was looked at.
#[derive(Clone, Copy)]
struct Front<'a> {
    rest: &'a [u8],
}

impl<'a> Front<'a> {
    /// The number at the front, if it is at most this limit.
    #[tactic(auto, using(m5_lex::proofs::Lexemes::digits_pass, m5_lex::proofs::Lexemes::digits_fit))]
    fn number(&mut self, most: u64) -> Option<u64>
        requires { 9 ≤ most }
        ensures { MatchOption result (number_in most self.old.rest.now ≡ None) (λ n. number_in most self.old.rest.now ≡ Some (n, self.new.rest.now)) }
    {
        let count = digits_length(self.rest);
        let number = value_within(&self.rest[..count], most)?;
        self.rest = skip(self.rest, count);
        Some(number)
    }

    /// The slot at the front.
    #[tactic(auto, unfolding(crate::specs::code::Guess::slot_in))]
    fn slot(&mut self) -> Option<u16>
        ensures { MatchOption result (slot_in self.old.rest.now ≡ None) (λ s. slot_in self.old.rest.now ≡ Some (s, self.new.rest.now)) }
    {
        let first = byte_at(self.rest, 0);
        self.rest = skip(self.rest, 1);
        match first {
            b'e' => Some(0),
            b'a' => Some(1),
            b'v' => {
                let number = self.number(65533)?;
                Some(number as u16 + 2)
            }
            _ => None,
        }
    }
}

/// The slot at the front of bytes, and the slot some bytes behind it.
fn two_slots(bytes: &[u8], between: usize) -> Option<(u16, u16)>
    ensures { result ≡ two_in between bytes.now }
{
    let mut front = Front { rest: bytes };
    let first = front.slot()?;
    front.rest = skip(front.rest, between);
    let second = front.slot()?;
    Some((first, second))
}

fn one_slot(bytes: &[u8]) -> Option<u16>
    ensures { result ≡ one_in bytes.now }
{
    let mut front = Front { rest: bytes };
    front.slot()
}

fn arithmetic(operator: u8, first: u16, second: u16) -> Option<Instruction>
    ensures guess { result ≡ arithmetic operator first second }
    ensures numbers { IfSome result IsInstruction }
{
    match operator {
        b'+' => Some(Instruction::Add(first, second)),
        b'-' => Some(Instruction::Sub(first, second)),
        b'*' => Some(Instruction::Mul(first, second)),
        b'/' => Some(Instruction::Quo(first, second)),
        _ => None,
    }
}

fn comparison(operator: u8, first: u16, second: u16) -> Option<Instruction>
    ensures guess { result ≡ comparison operator first second }
    ensures numbers { IfSome result IsInstruction }
{
    match operator {
        b'+' => Some(Instruction::Cat(first, second)),
        b'<' => Some(Instruction::Less(first, second)),
        b'=' => Some(Instruction::Same(first, second)),
        _ => None,
    }
}

/// Arithmetic, behind its opening.
fn wrapped(bytes: &[u8]) -> Option<Instruction>
    ensures guess { result ≡ wrapped_in bytes.now }
    ensures numbers { IfSome result IsInstruction }
{
    let mut front = Front { rest: bytes };
    let first = front.slot()?;
    let operator = byte_at(front.rest, 1);
    front.rest = skip(front.rest, 3);
    let second = front.slot()?;
    arithmetic(operator, first, second)
}

/// What begins with a slot: a field, or a comparison.
fn slot_first(bytes: &[u8]) -> Option<Instruction>
    ensures guess { result ≡ slot_first_in bytes.now }
    ensures numbers { IfSome result IsInstruction }
{
    let mut front = Front { rest: bytes };
    let first = front.slot()?;
    if byte_at(front.rest, 0) == b'[' {
        front.rest = skip(front.rest, 1);
        let place = front.number(65534)?;
        return Some(Instruction::Field(first, place as u16));
    }
    let operator = byte_at(front.rest, 1);
    let length = if operator == b'=' { 5 } else { 3 };
    front.rest = skip(front.rest, length);
    let second = front.slot()?;
    comparison(operator, first, second)
}

fn literal(bytes: &[u8]) -> Option<Instruction>
    ensures guess { result ≡ literal_in bytes.now }
    ensures numbers { IfSome result IsInstruction }
{
    let mut front = Front { rest: bytes };
    let number = front.number(9223372036854775807)?;
    Some(Instruction::Int(number as i64))
}

fn store(bytes: &[u8]) -> Option<Instruction>
    ensures guess { result ≡ store_in bytes.now }
    ensures numbers { IfSome result IsInstruction }
{
    let (slot, value) = two_slots(bytes, 2)?;
    Some(Instruction::Store(slot, value))
}

/// An instruction of one slot, by the first byte of its name.
fn call(name: u8, bytes: &[u8]) -> Option<Instruction>
    ensures guess { result ≡ call_in name bytes.now }
    ensures numbers { IfSome result IsInstruction }
{
    match name {
        b'S' => Some(Instruction::Str(one_slot(skip(bytes, 7))?)),
        b'c' => Some(Instruction::Cell(one_slot(skip(bytes, 5))?)),
        b'l' => Some(Instruction::Load(one_slot(skip(bytes, 5))?)),
        _ => Some(Instruction::Spawn(one_slot(skip(bytes, 6))?)),
    }
}

/// Slots with commas between them.
fn fields(alloc: Global, bytes: &[u8]) -> Result<Option<Vec<u16>>, AllocError>
    ensures guess { IfOk result (λ o. MatchOption o (fields_in (length bytes.now) bytes.now ≡ None) (λ slots. fields_in (length bytes.now) bytes.now ≡ Some slots.items)) }
    ensures slots { IfOk result (λ o. IfSome o (λ slots. All IsSlot slots.items)) }
{
    let mut front = Front { rest: bytes };
    let mut slots = Vec::new(alloc);
    for place in 0..bytes.len() {
        let slot = match front.slot() {
            Some(slot) => slot,
            None => return Ok(None),
        };
        slots.push(slot)?;
        if byte_at(front.rest, 0) != b',' {
            return Ok(Some(slots));
        }
        front.rest = skip(front.rest, 2);
    }
    Ok(None)
}

fn array(alloc: Global, bytes: &[u8]) -> Result<Option<Instruction>, AllocError>
    ensures guess { IfOk result (λ o. o ≡ array_of (fields_in (length bytes.now) bytes.now)) }
    ensures numbers { IfOk result (λ o. IfSome o IsInstruction) }
{
    match fields(alloc, bytes)? {
        None => Ok(None),
        Some(slots) => {
            if slots.is_empty() || slots.len() > 65535 {
                return Ok(None);
            }
            Ok(Some(Instruction::Array(Operands::of(slots))))
        }
    }
}

fn text(alloc: Global, bytes: &[u8]) -> Result<Option<Instruction>, AllocError>
    ensures guess { IfOk result (λ o. o ≡ quoted_value (quoted bytes.now)) }
    ensures numbers { IfOk result (λ o. IfSome o IsInstruction) }
{
    match read_quoted(alloc, bytes)? {
        Quoted::Closed(text, _) => Ok(Some(Instruction::Text(TextBytes::of(text.into_bytes())))),
        Quoted::Broken(_) => Ok(None),
    }
}

/// The value at the front of bytes.
#[tactic(auto, unfolding(crate::specs::code::Guess::value_in))]
fn value(alloc: Global, bytes: &[u8]) -> Result<Option<Instruction>, AllocError>
    ensures guess { IfOk result (λ o. o ≡ value_in bytes.now) }
    ensures numbers { IfOk result (λ o. IfSome o IsInstruction) }
{
    let first = byte_at(bytes, 0);
    if is_digit(first) {
        return Ok(literal(bytes));
    }
    match first {
        b'n' => Ok(Some(Instruction::Unit)),
        b't' => Ok(Some(Instruction::Bool(true))),
        b'f' => Ok(Some(Instruction::Bool(false))),
        b'"' => text(alloc, skip(bytes, 1)),
        b'[' => array(alloc, skip(bytes, 1)),
        b'B' => Ok(wrapped(skip(bytes, 18))),
        b'S' => Ok(call(first, bytes)),
        b'c' => Ok(call(first, bytes)),
        b'l' => Ok(call(first, bytes)),
        b's' => {
            if byte_at(bytes, 1) == b't' {
                Ok(store(skip(bytes, 6)))
            } else {
                Ok(call(first, bytes))
            }
        }
        _ => Ok(slot_first(bytes)),
    }
}

/// The constant whose number stands at the front.
fn statement(alloc: Global, bytes: &[u8]) -> Result<Option<Step>, AllocError>
    ensures guess { IfOk result (λ o. o ≡ statement_in bytes.now) }
    ensures numbers { IfOk result (λ o. IfSome o IsStep) }
{
    let mut front = Front { rest: bytes };
    if front.number(65533).is_none() {
        return Ok(None);
    }
    match value(alloc, skip(front.rest, 3))? {
        None => Ok(None),
        Some(instruction) => Ok(Some(Step::Fill(instruction))),
    }
}

fn branch(bytes: &[u8]) -> Option<Step>
    ensures guess { result ≡ branch_in bytes.now }
    ensures numbers { IfSome result IsStep }
{
    Some(Step::If(one_slot(bytes)?, 0))
}

fn go(bytes: &[u8]) -> Option<Step>
    ensures guess { result ≡ go_in bytes.now }
    ensures numbers { IfSome result IsStep }
{
    let (closure, value) = two_slots(bytes, 2)?;
    Some(Step::Go(closure, value))
}

fn ask_with(primitive: u8, bytes: &[u8]) -> Option<Step>
    ensures guess { result ≡ ask_with primitive bytes.now }
    ensures numbers { IfSome result IsStep }
{
    let (argument, next) = two_slots(bytes, 2)?;
    Some(Step::Ask(primitive, argument, next))
}

fn send_with(world: u8, bytes: &[u8]) -> Option<Step>
    ensures guess { result ≡ send_with world bytes.now }
    ensures numbers { IfSome result IsStep }
{
    let (closure, value) = two_slots(bytes, 2)?;
    Some(Step::Send(world, closure, value))
}

/// An ask, from its primitive's name on.
fn ask(bytes: &[u8]) -> Option<Step>
    ensures guess { result ≡ ask_in bytes.now }
    ensures numbers { IfSome result IsStep }
{
    match byte_at(bytes, 0) {
        b'g' => ask_with(2, skip(bytes, 11)),
        b'o' => ask_with(3, skip(bytes, 5)),
        _ => match byte_at(bytes, 1) {
            b'a' => ask_with(0, skip(bytes, 6)),
            b'e' => ask_with(1, skip(bytes, 11)),
            _ => ask_with(7, skip(bytes, 7)),
        },
    }
}

/// A send, from its world's name on.
fn send(bytes: &[u8]) -> Option<Step>
    ensures guess { result ≡ send_in bytes.now }
    ensures numbers { IfSome result IsStep }
{
    match byte_at(bytes, 0) {
        b'h' => send_with(0, skip(bytes, 7)),
        b's' => send_with(1, skip(bytes, 9)),
        _ => send_with(2, skip(bytes, 8)),
    }
}

/// An ending, from its `return` on.
fn ending(bytes: &[u8]) -> Option<Step>
    ensures guess { result ≡ ending_in bytes.now }
    ensures numbers { IfSome result IsStep }
{
    match byte_at(bytes, 7) {
        b'g' => go(skip(bytes, 10)),
        b'a' => ask(skip(bytes, 12)),
        b's' => send(skip(bytes, 13)),
        _ => Some(Step::Done),
    }
}

/// The step at the front of bytes, if one is there.
#[tactic(auto, unfolding(crate::specs::code::GuessedStep::step_in))]
pub(crate) fn step(alloc: Global, bytes: &[u8]) -> Result<Option<Step>, AllocError>
    ensures guess { IfOk result (λ o. o ≡ step_in bytes.now) }
    ensures numbers { IfOk result (λ o. IfSome o IsStep) }
{
    match byte_at(bytes, 0) {
        b'c' => statement(alloc, skip(bytes, 7)),
        b'i' => Ok(branch(skip(bytes, 4))),
        _ => Ok(ending(bytes)),
    }
}

/// The label at the front of bytes.
#[tactic(auto, unfolding(crate::specs::code::Guess::label_in))]
pub(crate) fn label(bytes: &[u8]) -> Option<u16>
    ensures { result ≡ label_in bytes.now }
{
    let mut front = Front { rest: bytes };
    let number = front.number(65535)?;
    Some(number as u16)
}
