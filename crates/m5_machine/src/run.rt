//! The run of a thread, block by block.

ghost use Rattle.std.specs.Prelude.{◌≡◌, ◌<◌, ◌∷◌, [], length};
ghost use Rattle.m5_machine.specs.Closure.{IsSound};
ghost use Rattle.m5_machine.specs.Run.{ending, entering, run_from, run, OutFits};
ghost use Rattle.m5_machine.specs.code.Running.{MayEnter};

use crate::block::run_block;
use crate::blocks::Blocks;
use crate::closure::{Target, entry};
use crate::next::Next;
use m5_region::bench::Bench;
use m5_region::out::Out;
use m5_region::slots::Slots;
use m5_region::value::Value;

/// The closure and the value that a thread goes on with.
fn entering(next: Next) -> Option<(Value, Value)>
    ensures { result ≡ entering next }
{
    match next {
        Next::Enters(closure, value) => Some((closure, value)),
        _ => None,
    }
}

/// How a block of a label ends the run of its thread.
fn ending(label: u16, next: Next) -> Out
    ensures { result ≡ ending label next }
{
    match next {
        Next::Enters(_, _) => Out::Wrong(label),
        Next::Asks(prim, argument, next) => Out::Asks {
            prim,
            argument,
            next,
        },
        Next::Sends(to, code, argument) => Out::Sends {
            to,
            code,
            argument,
            label,
        },
        Next::Ended => Out::Ended,
        Next::FullRegion => Out::FullRegion,
        Next::FullTable => Out::FullTable,
        Next::NoCase => Out::Wrong(label),
    }
}

/// Fills the first two slots alone.
fn open(slots: &mut Slots, closure: Value, value: Value)
    ensures { slots.new ≡ closure ∷ value ∷ [] }
{
    slots.cut(0);
    slots.push(closure);
    slots.push(value);
}

/// Enters a block with its closure and its argument, and those after it, up to the end of the run.
fn run_from(code: &Blocks, bench: &mut Bench, closure: Value, value: Value, to: Target) -> Out
    requires { MayEnter code.now bench.old closure value to }
    ensures run { run_from code.now bench.old.fuel closure value to bench.old ≡ (result, bench.new) }
    ensures sound { IsSound code.now bench.new }
    ensures fits { OutFits code.now bench.new.region.objects result }
{
    let mut closure = closure;
    let mut value = value;
    let mut to = to;
    loop {
        if bench.fuel == 0 {
            return Out::Spent;
        }
        bench.fuel -= 1;
        open(&mut bench.slots, closure, value);
        let next = run_block(code, bench, to.start);
        let Some((entered, argument)) = entering(next) else {
            return ending(to.label, next);
        };
        let Some(target) = entry(code, &bench.region, entered) else {
            return ending(to.label, next);
        };
        closure = entered;
        value = argument;
        to = target;
    }
}

/// Takes the front thread off and runs it: block after block, each for one of the fuel, up to an
/// ask, a send, the thread's end, or a stop. It takes no memory.
pub fn run_front(code: &Blocks, bench: &mut Bench) -> Out
    requires sound { IsSound code.now bench.old }
    requires thread { 0 < length bench.old.threads }
    ensures run { run code.now bench.old ≡ (result, bench.new) }
    ensures sound { IsSound code.now bench.new }
    ensures fits { OutFits code.now bench.new.region.objects result }
{
    let Some(thread) = bench.threads.pop() else {
        return Out::Ended;
    };
    let Some(to) = entry(code, &bench.region, thread.code) else {
        return Out::Ended;
    };
    run_from(code, bench, thread.code, thread.argument, to)
}
