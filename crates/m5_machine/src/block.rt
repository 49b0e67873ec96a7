//! One block's run.

ghost use Rattle.std.specs.Prelude.{◌≡◌, ◌<◌, length, All, IfSome};
ghost use Rattle.m5_region.specs.Region.{Refers};
ghost use Rattle.m5_machine.specs.declared.next.Next.TheVariants.{Enters, Sends};
ghost use Rattle.m5_machine.specs.Block.{filling, of_slots, asking, run_body, NextFits};
ghost use Rattle.m5_machine.specs.Blocks.{Flat, body_at};
ghost use Rattle.m5_machine.specs.Closure.{IsSound};
ghost use Rattle.m5_machine.specs.code.Running.{IsRunning, IsReady, KeepsFilling, Leads};

use crate::blocks::Blocks;
use crate::closure::entry;
use crate::made::Made;
use crate::make::make;
use crate::next::{Led, Next};
use crate::operand::bool_in;
use crate::primitive::takes;
use crate::step::{Instruction, Step};
use m5_region::bench::Bench;
use m5_region::region::Region;
use m5_region::slots::Slots;

/// Fills the next slot, or says how the run ended.
fn fill(code: &Blocks, instruction: &Instruction, bench: &mut Bench) -> Option<Next>
    requires running { IsRunning code.now bench.old }
    requires room { length bench.old.slots < 65536 }
    ensures filled { filling code.now instruction.now bench.old ≡ (result, bench.new) }
    ensures keeps { KeepsFilling code.now bench.old bench.new }
    ensures fits { IfSome result (NextFits code.now bench.new.region.objects) }
{
    match make(code, instruction, bench) {
        Made::Gives(value) => {
            bench.slots.push(value);
            None
        }
        Made::NoRegion => Some(Next::FullRegion),
        Made::NoTable => Some(Next::FullTable),
        Made::NoCase => Some(Next::NoCase),
    }
}

fn enters(region: &Region, slots: &Slots, closure: u16, value: u16) -> Next
    requires { All (Refers region.now.objects) slots.now }
    ensures next { result ≡ of_slots slots.now closure value Enters }
    ensures fits { (code : Flat) → NextFits code region.now.objects result }
{
    let _ = region;
    match (slots.get(closure as u32), slots.get(value as u32)) {
        (Some(closure), Some(value)) => Next::Enters(closure, value),
        _ => Next::NoCase,
    }
}

fn sends(region: &Region, slots: &Slots, world: u8, closure: u16, value: u16) -> Next
    requires { All (Refers region.now.objects) slots.now }
    ensures next { result ≡ of_slots slots.now closure value (Sends world) }
    ensures fits { (code : Flat) → NextFits code region.now.objects result }
{
    let _ = region;
    match (slots.get(closure as u32), slots.get(value as u32)) {
        (Some(closure), Some(value)) => Next::Sends(world, closure, value),
        _ => Next::NoCase,
    }
}

/// The ask of a primitive, if its argument is what it takes and its answer enters a closure.
fn asks(
    code: &Blocks,
    region: &Region,
    slots: &Slots,
    primitive: u8,
    argument: u16,
    next: u16,
) -> Next
    requires { All (Refers region.now.objects) slots.now }
    ensures next { result ≡ of_slots slots.now argument next (asking code.now region.now.objects primitive) }
    ensures fits { NextFits code.now region.now.objects result }
{
    match (slots.get(argument as u32), slots.get(next as u32)) {
        (Some(argument), Some(next)) => {
            if takes(code, region, primitive, argument) && entry(code, region, next).is_some() {
                Next::Asks(primitive, argument, next)
            } else {
                Next::NoCase
            }
        }
        _ => Next::NoCase,
    }
}

/// The step at a place, and where it leads.
fn step(code: &Blocks, bench: &mut Bench, at: u32) -> Led
    requires { IsReady code.now bench.old at }
    ensures { Leads code.now bench.old at result bench.new }
{
    match code.step(at) {
        Step::Fill(instruction) => match fill(code, instruction, bench) {
            None => Led::On(at + 1),
            Some(next) => Led::Out(next),
        },
        Step::If(slot, place) => match bool_in(&bench.slots, *slot) {
            Some(true) => Led::On(at + 1),
            Some(false) => Led::On(*place),
            None => Led::Out(Next::NoCase),
        },
        Step::Go(closure, value) => {
            Led::Out(enters(&bench.region, &bench.slots, *closure, *value))
        }
        Step::Ask(primitive, argument, next) => Led::Out(asks(
            code,
            &bench.region,
            &bench.slots,
            *primitive,
            *argument,
            *next,
        )),
        Step::Send(world, closure, value) => {
            Led::Out(sends(&bench.region, &bench.slots, *world, *closure, *value))
        }
        Step::Done => Led::Out(Next::Ended),
    }
}

/// A block's whole run, from the place where its body begins.
pub(crate) fn run_block(code: &Blocks, bench: &mut Bench, start: u32) -> Next
    requires { IsReady code.now bench.old start }
    ensures run { run_body code.now (body_at code.now start) bench.old ≡ (result, bench.new) }
    ensures sound { IsSound code.now bench.new }
    ensures fuel { bench.new.fuel ≡ bench.old.fuel }
    ensures fits { NextFits code.now bench.new.region.objects result }
{
    let mut at = start;
    loop {
        match step(code, bench, at) {
            Led::On(to) => at = to,
            Led::Out(next) => return next,
        }
    }
}
