//! Gets: here the continuation gets the value, from another world it comes in a message.

ghost use Rattle.std.specs.Prelude.{◌≡◌, IfOk, IsTrue, OnOk};
ghost use Rattle.m5_terms.specs.Expression.{binary};
ghost use Rattle.m5_terms.specs.declared.form.BinaryForm.TheVariants.{Get};
ghost use Rattle.m5_typing.specs.Program.{in_text};
ghost use Rattle.m5_cps_convert.specs.Forms.{variable_of};
ghost use Rattle.m5_cps_convert.specs.code.Aways.{EmitsAway};
ghost use Rattle.m5_cps_convert.specs.code.Emitting.{Emits};
ghost use Rattle.m5_cps_convert.specs.code.Gets.{here_ending, away_ending, SendsAway, Sends, GetsVariable};
ghost use Rattle.m5_cps_convert.specs.code.Parts.{EmitsApart, EmitsBody, EmitsParts};

use crate::around::{awaiting, in_block, taking};
use crate::aways::{away_to, send_home};
use crate::choices::{begin_test, end_test};
use crate::closing::{begin_closure, close_behind, hold, resume};
use crate::names::see;
use crate::node::emit;
use crate::part_types::place_of;
use crate::types::add_row;
use crate::walk::{Around, Goal, Value, Walk, next_number};
use m5_cps::entry::{Argument, Entry, Mode};
use m5_cps::step::{Constant, Ending, Step, Straight, Test};
use m5_cps::types::TypeRow;
use m5_terms::node::Node;
use m5_terms::opened::{LeafView, Opened};
use m5_terms::types::World;
use std::alloc::{AllocError, Global};

/// What a get has in a slot: its body's value, or the closure of its body, which waits for its
/// continuation.
#[derive(Clone, Copy)]
pub enum Sent {
    Value(u32),
    Goal(u32),
}

impl Sent {
    /// How it goes on here, with the continuation in a slot.
    fn here(self, continuation: u32) -> Ending
        ensures { result ≡ here_ending self continuation }
    {
        match self {
            Sent::Value(slot) => Ending::Go(continuation, slot),
            Sent::Goal(slot) => Ending::Go(slot, continuation),
        }
    }

    /// How it goes to an address, with a closure that sends back.
    fn away(self, address: u32, back: u32) -> Ending
        ensures { result ≡ away_ending self address back }
    {
        match self {
            Sent::Value(slot) => Ending::Send(address, back, slot),
            Sent::Goal(slot) => Ending::Send(address, slot, back),
        }
    }
}

/// The number of the variable that a node is.
pub(crate) fn variable_of(node: &Node) -> Option<u32>
    ensures { result ≡ variable_of node.now }
{
    match node.open() {
        Opened::Leaf(LeafView::Var(number)) => Some(number),
        Opened::Leaf(LeafView::Valid(number)) => Some(number),
        _ => None,
    }
}

/// Where the address in a slot is of another world, what there is goes there, with a closure that
/// sends a value back to this world for the continuation.
fn send_away(
    walk: &mut Walk,
    world: World,
    ty: usize,
    sent: Sent,
    address: u32,
    continuation: u32,
    filled: u32,
) -> Result<(), AllocError>
    ensures { OnOk result (SendsAway walk.old walk.new world ty sent address continuation filled) }
{
    let back = next_number(filled)?;
    let value = next_number(back)?;
    walk.steps
        .push(Step::Straight(Straight::Constant(Constant::Here)))?;
    let pending = begin_closure(walk)?;
    walk.steps
        .push(Step::Ends(Ending::Send(filled, continuation, value)))?;
    let entry = Entry::ByValue(Mode::Only(world), Argument::Value(ty));
    close_behind(walk, pending, entry);
    walk.steps.push(Step::Ends(sent.away(address, back)))?;
    Ok(())
}

/// Where the address in a slot is of this world, the continuation gets what there is; else it is
/// sent.
pub(crate) fn go_or_send(
    walk: &mut Walk,
    world: World,
    ty: usize,
    sent: Sent,
    address: u32,
    continuation: u32,
    filled: u32,
) -> Result<(), AllocError>
    ensures { OnOk result (Sends walk.old walk.new world ty sent address continuation filled) }
{
    let place = begin_test(walk, Test::Here, address)?;
    walk.steps.push(Step::Ends(sent.here(continuation)))?;
    end_test(walk, place, Test::Here, address);
    send_away(walk, world, ty, sent, address, continuation, filled)?;
    Ok(())
}

/// A get whose body is a variable: its value itself goes to the continuation. Its type's number.
pub(crate) fn get_variable(
    walk: &mut Walk,
    around: Around,
    world: World,
    variable: u32,
    address: Value,
    continuation: u32,
) -> Result<usize, AllocError>
    ensures { IfOk result (GetsVariable walk.old walk.new around world variable address continuation) }
{
    let seen = see(walk, around.depth, variable);
    match seen.slot {
        Some(slot) => {
            let sent = Sent::Value(slot);
            let filled = address.filled;
            go_or_send(
                walk,
                world,
                seen.ty,
                sent,
                address.slot,
                continuation,
                filled,
            )?;
        }
        None => {
            walk.steps
                .push(Step::Straight(Straight::Constant(Constant::Unit)))?;
            let sent = Sent::Value(address.filled);
            let filled = next_number(address.filled)?;
            go_or_send(
                walk,
                world,
                seen.ty,
                sent,
                address.slot,
                continuation,
                filled,
            )?;
        }
    }
    Ok(seen.ty)
}

/// The body of a get at a world, whose address and continuation are in slots: its type's number.
#[cycle(emit)]
fn emit_body(
    alloc: Global,
    walk: &mut Walk,
    around: Around,
    world: World,
    address: Value,
    continuation: u32,
    node: &Node,
) -> Result<usize, AllocError>
    requires { IsTrue (in_text node.now) }
    ensures { IfOk result (EmitsBody walk.old walk.new around world address continuation node.now) }
{
    match variable_of(node) {
        Some(variable) => get_variable(walk, around, world, variable, address, continuation),
        None => {
            let waiting = next_number(address.filled)?;
            let body = next_number(waiting)?;
            let pending = begin_closure(walk)?;
            let inside = in_block(around, Mode::Only(world));
            let value = emit(alloc, walk, inside, body, Goal::Tail(waiting), node)?;
            close_behind(walk, pending, awaiting(Mode::Only(world), value.ty));
            let sent = Sent::Goal(address.filled);
            let ty = value.ty;
            go_or_send(walk, world, ty, sent, address.slot, continuation, waiting)?;
            Ok(ty)
        }
    }
}

/// The address of a get, and its body, for the continuation in a slot: the body's type's number.
#[cycle(emit)]
fn emit_apart(
    alloc: Global,
    walk: &mut Walk,
    around: Around,
    filled: u32,
    continuation: u32,
    first: &Node,
    second: &Node,
) -> Result<usize, AllocError>
    requires { IsTrue (in_text first.now) × IsTrue (in_text second.now) }
    ensures { IfOk result (EmitsApart walk.old walk.new around filled continuation first.now second.now) }
{
    let address = emit(alloc, walk, around, filled, Goal::Then, first)?;
    let world = place_of(&walk.types, address.ty);
    emit_body(alloc, walk, around, world, address, continuation, second)
}

/// What a site at the block's own world does: the body goes as a block that takes the continuation
/// with it, and sends its value home. How many slots are filled for what another site does.
#[cycle(emit)]
fn emit_away(
    alloc: Global,
    walk: &mut Walk,
    around: Around,
    world: World,
    filled: u32,
    continuation: u32,
    second: &Node,
) -> Result<u32, AllocError>
    requires { IsTrue (in_text second.now) }
    ensures { IfOk result (EmitsAway walk.old walk.new around world filled continuation second.now) }
{
    let own = around.mode.world();
    let address = next_number(filled)?;
    let block = next_number(address)?;
    let argument = next_number(block)?;
    let body = next_number(argument)?;
    walk.steps
        .push(Step::Straight(Straight::Constant(Constant::Addr(own))))?;
    let place = begin_test(walk, Test::Here, filled)?;
    walk.steps
        .push(Step::Straight(Straight::Constant(Constant::Addr(world))))?;
    let pending = begin_closure(walk)?;
    let inside = in_block(around, Mode::Only(world));
    let value = emit(alloc, walk, inside, body, Goal::Then, second)?;
    send_home(walk, own, continuation, value)?;
    let ty = add_row(&mut walk.types, TypeRow::Address(own))?;
    close_behind(walk, pending, taking(inside, ty));
    walk.steps
        .push(Step::Ends(Ending::Send(address, block, filled)))?;
    end_test(walk, place, Test::Here, filled);
    Ok(address)
}

/// The parts of a get, for the continuation in a slot: the body's type's number.
#[cycle(emit)]
fn emit_parts(
    alloc: Global,
    walk: &mut Walk,
    around: Around,
    filled: u32,
    continuation: u32,
    first: &Node,
    second: &Node,
) -> Result<usize, AllocError>
    requires { IsTrue (in_text first.now) × IsTrue (in_text second.now) }
    ensures { IfOk result (EmitsParts walk.old walk.new around filled continuation first.now second.now) }
{
    match away_to(around.mode.world(), first, second) {
        Some(world) => {
            let rest = emit_away(alloc, walk, around, world, filled, continuation, second)?;
            emit_apart(alloc, walk, around, rest, continuation, first, second)
        }
        None => emit_apart(alloc, walk, around, filled, continuation, first, second),
    }
}

/// A get, whose continuation gets its slot before its address is evaluated.
#[cycle(emit)]
pub(crate) fn emit_get(
    alloc: Global,
    walk: &mut Walk,
    around: Around,
    filled: u32,
    goal: Goal,
    first: &Node,
    second: &Node,
) -> Result<Value, AllocError>
    requires { IsTrue (in_text first.now) × IsTrue (in_text second.now) }
    ensures { IfOk result (Emits walk.old walk.new around filled goal (binary Get first.now second.now)) }
{
    let held = hold(walk, goal, filled)?;
    let ty = emit_parts(alloc, walk, around, held.filled, held.slot, first, second)?;
    resume(walk, held, goal, taking(around, ty), ty)
}
