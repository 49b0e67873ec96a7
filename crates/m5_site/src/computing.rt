//! How a site computes, up to what it waits for.

ghost use Rattle.std.specs.Prelude.{◌≡◌, ℕ, ◌<◌, ◌↔◌, length, IfOk, IsTrue};
ghost use Rattle.m5_machine.specs.Block.{AskFits};
ghost use Rattle.m5_machine.specs.Blocks.{Flat};
ghost use Rattle.m5_machine.specs.Closure.{IsSound};
ghost use Rattle.m5_machine.specs.Run.{run, OutFits};
ghost use Rattle.m5_region.specs.Region.{Refers};
ghost use Rattle.m5_region.specs.declared.out.Out.TheVariants as outs;
ghost use Rattle.m5_terms.specs.Worlds.{IsSiteWorld};
ghost use Rattle.m5_site.specs.declared.state.Wait.TheVariants as waits;
ghost use Rattle.m5_site.specs.Object.{code_of};
ghost use Rattle.m5_site.specs.Site.{adds_handler, with_handler, calls, world_of, sends, came, moved, need_of};
ghost use Rattle.m5_site.specs.Stops.{ComesTo};
ghost use Rattle.m5_site.specs.code.Sound.{IsClosureIn, IsSoundState, WaitFits};

use crate::asking::two_parts;
use crate::object::Object;
use crate::state::{Need, State, Wait};
use m5_home_vm::run_home;
use m5_marshal::has_bytes;
use m5_region::bench::Bench;
use m5_region::out::Out;
use m5_region::queue::Ready;
use m5_region::value::Value;
use m5_server_vm::run_server;
use m5_terms::ask::Cause;
use m5_terms::types::World;
use std::alloc::{AllocError, Global};

/// Runs the front thread by the world's machine.
fn run(object: &Object, world: World, bench: &mut Bench) -> Out
    requires world { IsSiteWorld world }
    requires sound { IsSound (code_of object.now world) bench.old }
    requires thread { 0 < length bench.old.threads }
    ensures run { run (code_of object.now world) bench.old ≡ (result, bench.new) }
    ensures sound { IsSound (code_of object.now world) bench.new }
    ensures fits { OutFits (code_of object.now world) bench.new.region.objects result }
{
    match world {
        World::Server => run_server(object.server(), bench),
        World::Panel => run_home(object.panel(), bench),
        _ => run_home(object.home(), bench),
    }
}

/// Adds a handler before its call is asked, if there is room for it.
fn with_handler(state: &mut State, handler: Value, wait: Wait) -> Wait
    ensures is { with_handler handler wait state.old ≡ (result, state.new) }
    ensures sound { (code : Flat) → IsSoundState code state.old → IsClosureIn code state.old.bench.region.objects handler → IsSoundState code state.new }
    ensures bench { state.new.bench ≡ state.old.bench }
{
    if state.handlers.push(handler) {
        wait
    } else {
        Wait::Stop(Cause::Table)
    }
}

/// Whether the call of a primitive adds a handler.
fn adds_handler(primitive: u8) -> bool
    ensures { result ≡ adds_handler primitive }
{
    primitive == 3 || primitive == 6
}

/// A primitive's call.
fn calls(state: &mut State, primitive: u8, argument: Value, next: Value) -> Wait
    requires { Refers state.old.bench.region.objects argument }
    ensures is { calls primitive argument next state.old ≡ (result, state.new) }
    ensures sound { (code : Flat) → IsSoundState code state.old → AskFits code state.old.bench.region.objects primitive argument next → IsSoundState code state.new }
    ensures bench { state.new.bench ≡ state.old.bench }
{
    let wait = Wait::Call(primitive, argument, next);
    if adds_handler(primitive) {
        let (_, handler) = two_parts(&state.bench.region, argument);
        with_handler(state, handler, wait)
    } else {
        wait
    }
}

/// The world of a code.
fn world_of(code: u8) -> World
    ensures { result ≡ world_of code }
{
    match code {
        0 => World::Home,
        1 => World::Server,
        _ => World::Panel,
    }
}

/// A thread's send, if it has bytes.
fn sends(
    alloc: Global,
    object: &Object,
    state: &State,
    label: u16,
    to: u8,
    thread: Ready,
) -> Result<Wait, AllocError>
    requires code { Refers state.now.bench.region.objects thread.code }
    requires argument { Refers state.now.bench.region.objects thread.argument }
    ensures { IfOk result (λ wait. sends object.now label to thread state.now ≡ (wait, state.now)) }
{
    object.is_object();
    let has = has_bytes(alloc, &state.bench.region, object.dicts(), &thread)?;
    if has {
        Ok(Wait::Send(world_of(to), thread))
    } else {
        Ok(Wait::Wrong(label))
    }
}

/// What the site waits for after a run of its front thread.
fn came(
    alloc: Global,
    object: &Object,
    world: World,
    state: &mut State,
    out: Out,
) -> Result<Wait, AllocError>
    requires sound { IsSoundState (code_of object.now world) state.old }
    requires fits { OutFits (code_of object.now world) state.old.bench.region.objects out }
    ensures is { IfOk result (λ wait. came object.now out state.old ≡ (wait, state.new)) }
    ensures sound { IfOk result (λ wait. IsSoundState (code_of object.now world) state.new) }
    ensures fits { IfOk result (λ wait. WaitFits object.now (code_of object.now world) state.new wait) }
    ensures bench { IfOk result (λ wait. state.new.bench ≡ state.old.bench) }
    ensures ended { IfOk result (λ wait. wait ≡ waits.Nothing → out ≡ outs.Ended) }
{
    match out {
        Out::Asks {
            prim,
            argument,
            next,
        } => Ok(calls(state, prim, argument, next)),
        Out::Sends {
            to,
            code,
            argument,
            label,
        } => sends(alloc, object, state, label, to, Ready { code, argument }),
        Out::Ended => Ok(Wait::Nothing),
        Out::Spent => Ok(Wait::Stop(Cause::Spent)),
        Out::FullRegion => Ok(Wait::Stop(Cause::Region)),
        Out::FullTable => Ok(Wait::Stop(Cause::Table)),
        Out::Wrong(label) => Ok(Wait::Wrong(label)),
    }
}

/// Runs the front thread, up to what the site waits for then.
fn moved(
    alloc: Global,
    object: &Object,
    world: World,
    state: &mut State,
) -> Result<Wait, AllocError>
    requires world { IsSiteWorld world }
    requires sound { IsSoundState (code_of object.now world) state.old }
    ensures is { IfOk result (λ wait. moved object.now world state.old ≡ (wait, state.new)) }
    ensures sound { IfOk result (λ wait. IsSoundState (code_of object.now world) state.new) }
    ensures fits { IfOk result (λ wait. WaitFits object.now (code_of object.now world) state.new wait) }
    ensures fuel { IfOk result (λ wait. wait ≡ waits.Nothing → state.new.bench.fuel < state.old.bench.fuel) }
{
    match state.due {
        Some(cause) => return Ok(Wait::Stop(cause)),
        None => {}
    }
    if state.bench.threads.len() == 0 {
        return Ok(Wait::Take);
    }
    let out = run(object, world, &mut state.bench);
    came(alloc, object, world, state, out)
}

/// Whether a site goes on computing.
fn goes_on(wait: Wait) -> bool
    ensures { IsTrue result ↔ (wait ≡ waits.Nothing) }
{
    matches!(wait, Wait::Nothing)
}

/// Runs the threads one after the other, up to what the site waits for.
pub(crate) fn computed(
    alloc: Global,
    object: &Object,
    world: World,
    state: &mut State,
) -> Result<Wait, AllocError>
    requires world { IsSiteWorld world }
    requires sound { IsSoundState (code_of object.now world) state.old }
    ensures comes { IfOk result (λ wait. (s : ℕ) → ComesTo object.now s world state.old wait state.new) }
    ensures sound { IfOk result (λ wait. IsSoundState (code_of object.now world) state.new) }
    ensures fits { IfOk result (λ wait. WaitFits object.now (code_of object.now world) state.new wait) }
{
    'threads: loop {
        let wait = moved(alloc, object, world, state)?;
        if !goes_on(wait) {
            return Ok(wait);
        }
    }
}

/// What a site that waits needs.
pub(crate) fn need_of(wait: Wait) -> Need
    ensures { result ≡ need_of wait }
{
    match wait {
        Wait::Call(_, _, _) | Wait::Send(_, _) => Need::Ask,
        Wait::Nothing | Wait::Take => Need::Take,
        Wait::Stop(cause) => Need::Stop(cause),
        Wait::Wrong(label) => Need::Wrong(label),
    }
}
