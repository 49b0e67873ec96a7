//! The code of nodes, form by form: each part's code is written once, from left to right.

ghost use Rattle.std.specs.Prelude.{◌≡◌, Some, None, IfOk, IsTrue};
ghost use Rattle.m5_terms.specs.Expression.{unary, binary, ternary};
ghost use Rattle.m5_terms.specs.Opened.{viewed_unary};
ghost use Rattle.m5_terms.specs.declared.form.BinaryForm.TheVariants.{Call, Pair};
ghost use Rattle.m5_terms.specs.declared.form.UnaryForm.TheVariants as unary_form;
ghost use Rattle.m5_typing.specs.Program.{in_text};
ghost use Rattle.m5_cps_convert.specs.Convert.{called_directly};
ghost use Rattle.m5_cps_convert.specs.code.Emitting.{Emits, EmitsWithin};
ghost use Rattle.m5_cps_convert.specs.code.Functions.{IsFunction};
ghost use Rattle.m5_cps_convert.specs.code.Operations.{IsOperation};
ghost use Rattle.m5_cps_convert.specs.code.Parts.{EmitsArm};
ghost use Rattle.m5_cps_convert.specs.code.Ways.{IsLet, IsTwo, extern_of};

use crate::around::{OPEN_ARMS, around_part, awaiting, in_arm, in_block, taking};
use crate::choices::{begin_test, end_test, in_second, in_third, test_of, whole_or_own};
use crate::closing::{begin_closure, close_behind, hold, resume};
use crate::functions::{head_of, signature_of};
use crate::gets::emit_get;
use crate::leaves::emit_leaf;
use crate::lets::{Inside, begin_let};
use crate::operations::{add_quotient, finish_operation};
use crate::pairs::{pair_up, wait};
use crate::two_parts::{ask, finish_two};
use crate::walk::{Around, Goal, Known, Value, Walk, next_number};
use crate::ways::{Way, way_of};
use crate::writing::{give, go_on};
use m5_cps::entry::{Entry, Mode};
use m5_cps::step::{Ending, Operation, Step, Straight};
use m5_terms::form::{BinaryForm, TernaryForm};
use m5_terms::node::Node;
use m5_terms::opened::{Opened, UnaryView};
use m5_terms::table::Binding;
use m5_terms::types::Prim;
use std::alloc::{AllocError, Global};

/// A node inside the binders of a form.
#[cycle(emit)]
pub(crate) fn within(
    alloc: Global,
    walk: &mut Walk,
    around: Around,
    filled: u32,
    goal: Goal,
    binding: Binding<Known>,
    node: &Node,
) -> Result<Value, AllocError>
    requires { IsTrue (in_text node.now) }
    ensures { IfOk result (EmitsWithin binding walk.old walk.new around filled goal node.now) }
{
    let hidden = walk.names.enter(binding)?;
    let value = emit(alloc, walk, around, filled, goal, node)?;
    walk.names.leave(hidden)?;
    Ok(value)
}

/// A form that is straight over its part's value.
#[cycle(emit)]
fn emit_operation(
    alloc: Global,
    walk: &mut Walk,
    around: Around,
    filled: u32,
    goal: Goal,
    form: UnaryView<'_>,
    first: &Node,
) -> Result<Value, AllocError>
    requires operation { IsOperation (viewed_unary form) }
    requires text { IsTrue (in_text first.now) }
    ensures { IfOk result (Emits walk.old walk.new around filled goal (unary (viewed_unary form.entry) first.now)) }
{
    let inside = around_part(around, &form)?;
    let part = emit(alloc, walk, inside, filled, Goal::Then, first)?;
    finish_operation(walk, around, form, part, goal)
}

/// A division, whose continuation gets its slot before.
#[cycle(emit)]
fn emit_division(
    alloc: Global,
    walk: &mut Walk,
    around: Around,
    filled: u32,
    goal: Goal,
    first: &Node,
) -> Result<Value, AllocError>
    requires { IsTrue (in_text first.now) }
    ensures { IfOk result (Emits walk.old walk.new around filled goal (unary unary_form.Div first.now)) }
{
    let ty = add_quotient(walk)?;
    let held = hold(walk, goal, filled)?;
    let part = emit(alloc, walk, around, held.filled, Goal::Then, first)?;
    let straight = Straight::One(Operation::Div, part.slot);
    give(walk, straight, part.filled, Goal::Tail(held.slot), ty)?;
    resume(walk, held, goal, taking(around, ty), ty)
}

/// A function, whose body is a block of its own.
#[cycle(emit)]
fn emit_function(
    alloc: Global,
    walk: &mut Walk,
    around: Around,
    filled: u32,
    goal: Goal,
    form: UnaryView<'_>,
    first: &Node,
) -> Result<Value, AllocError>
    requires function { IsFunction (viewed_unary form) }
    requires text { IsTrue (in_text first.now) }
    ensures { IfOk result (Emits walk.old walk.new around filled goal (unary (viewed_unary form.entry) first.now)) }
{
    let head = head_of(walk, around, filled, &form)?;
    let pending = begin_closure(walk)?;
    let inside = in_block(around, Mode::Only(around.mode.world()));
    let tail = Goal::Tail(head.continuation);
    let body = within(alloc, walk, inside, head.filled, tail, head.binding, first)?;
    let signature = signature_of(&mut walk.types, head.argument, head.written, body.ty)?;
    let entry = Entry::ByCall(around.mode, head.argument, signature.result);
    close_behind(walk, pending, entry);
    go_on(walk, filled, next_number(filled)?, goal, signature.whole)
}

/// A thread that begins with a block of its own.
#[cycle(emit)]
fn emit_spawn(
    alloc: Global,
    walk: &mut Walk,
    around: Around,
    filled: u32,
    goal: Goal,
    first: &Node,
) -> Result<Value, AllocError>
    requires { IsTrue (in_text first.now) }
    ensures { IfOk result (Emits walk.old walk.new around filled goal (unary unary_form.Spawn first.now)) }
{
    let unit = walk.types.unit();
    let argument = next_number(filled)?;
    let body = next_number(argument)?;
    let pending = begin_closure(walk)?;
    let inside = in_block(around, around.mode);
    emit(alloc, walk, inside, body, Goal::End, first)?;
    close_behind(walk, pending, taking(around, unit));
    give(walk, Straight::Spawn(filled), argument, goal, unit)
}

/// A primitive that is called directly.
#[cycle(emit)]
fn emit_ask(
    alloc: Global,
    walk: &mut Walk,
    around: Around,
    filled: u32,
    goal: Goal,
    prim: Prim,
    first: &Node,
    second: &Node,
) -> Result<Value, AllocError>
    requires direct { extern_of first.now ≡ Some prim }
    requires text { IsTrue (in_text second.now) }
    ensures { IfOk result (Emits walk.old walk.new around filled goal (binary Call first.now second.now)) }
{
    let argument = emit(alloc, walk, around, filled, Goal::Then, second)?;
    ask(alloc, walk, around, prim, argument, goal)
}

/// A declaration over the rest of its `let`, which is in tail position.
#[cycle(emit)]
fn emit_let(
    alloc: Global,
    walk: &mut Walk,
    around: Around,
    filled: u32,
    goal: Goal,
    form: BinaryForm,
    first: &Node,
    second: &Node,
) -> Result<Value, AllocError>
    requires declares { IsLet form }
    requires text { IsTrue (in_text first.now) × IsTrue (in_text second.now) }
    ensures { IfOk result (Emits walk.old walk.new around filled goal (binary form first.now second.now)) }
{
    let value = emit(alloc, walk, around, filled, Goal::Then, first)?;
    let inside = begin_let(walk, around, form, value)?;
    let filled = inside.filled;
    within(alloc, walk, around, filled, goal, inside.binding, second)
}

/// A form that is made of two values.
#[cycle(emit)]
fn emit_two(
    alloc: Global,
    walk: &mut Walk,
    around: Around,
    filled: u32,
    goal: Goal,
    form: BinaryForm,
    first: &Node,
    second: &Node,
) -> Result<Value, AllocError>
    requires form { IsTwo form × (called_directly form first.now ≡ None) }
    requires text { IsTrue (in_text first.now) × IsTrue (in_text second.now) }
    ensures { IfOk result (Emits walk.old walk.new around filled goal (binary form first.now second.now)) }
{
    let value = emit(alloc, walk, around, filled, Goal::Then, first)?;
    let other = emit(alloc, walk, around, value.filled, Goal::Then, second)?;
    finish_two(walk, around, form, value, other, goal)
}

/// An arm of a choice, for the continuation in a slot: its type's number. Where many arms are open,
/// it gets a block of its own, so that no block's tests nest deep.
#[cycle(emit)]
fn emit_arm(
    alloc: Global,
    walk: &mut Walk,
    around: Around,
    inside: Inside,
    continuation: u32,
    whole: Option<usize>,
    node: &Node,
) -> Result<usize, AllocError>
    requires { IsTrue (in_text node.now) }
    ensures { IfOk result (EmitsArm inside.binding walk.old walk.new around inside.filled continuation whole node.now) }
{
    let Inside { filled, binding } = inside;
    if around.arms < OPEN_ARMS {
        let arm = in_arm(around)?;
        let goal = Goal::Tail(continuation);
        let value = within(alloc, walk, arm, filled, goal, binding, node)?;
        return Ok(value.ty);
    }
    let waiting = next_number(filled)?;
    let body = next_number(waiting)?;
    let pending = begin_closure(walk)?;
    let block = in_block(around, around.mode);
    let goal = Goal::Tail(waiting);
    let value = within(alloc, walk, block, body, goal, binding, node)?;
    let ty = whole_or_own(whole, value.ty);
    close_behind(walk, pending, awaiting(around.mode, ty));
    walk.steps
        .push(Step::Ends(Ending::Go(filled, continuation)))?;
    Ok(value.ty)
}

/// A choice, both of whose arms go on with the continuation in one slot.
#[cycle(emit)]
fn emit_choice(
    alloc: Global,
    walk: &mut Walk,
    around: Around,
    filled: u32,
    goal: Goal,
    form: TernaryForm,
    first: &Node,
    second: &Node,
    third: &Node,
) -> Result<Value, AllocError>
    requires { IsTrue (in_text first.now) × IsTrue (in_text second.now) × IsTrue (in_text third.now) }
    ensures { IfOk result (Emits walk.old walk.new around filled goal (ternary form first.now second.now third.now)) }
{
    let chosen = emit(alloc, walk, around, filled, Goal::Then, first)?;
    let held = hold(walk, goal, chosen.filled)?;
    let test = test_of(form);
    let place = begin_test(walk, test, chosen.slot)?;
    let inside = in_second(&walk.types, around, form, chosen.ty, held.filled)?;
    let ty = emit_arm(alloc, walk, around, inside, held.slot, None, second)?;
    end_test(walk, place, test, chosen.slot);
    let inside = in_third(&walk.types, around, form, chosen.ty, held.filled)?;
    emit_arm(alloc, walk, around, inside, held.slot, Some(ty), third)?;
    resume(walk, held, goal, taking(around, ty), ty)
}

/// Nested pairs: their first parts from left to right, the last part, and then the pairs from
/// inside.
#[cycle(emit)]
fn emit_pairs(
    alloc: Global,
    walk: &mut Walk,
    around: Around,
    filled: u32,
    goal: Goal,
    first: &Node,
    second: &Node,
) -> Result<Value, AllocError>
    requires { IsTrue (in_text first.now) × IsTrue (in_text second.now) }
    ensures { IfOk result (Emits walk.old walk.new around filled goal (binary Pair first.now second.now)) }
{
    let mut waiting = Vec::new(alloc);
    let outermost = emit(alloc, walk, around, filled, Goal::Then, first)?;
    wait(&mut waiting, outermost)?;
    let mut next = outermost.filled;
    let mut rest = second;
    while let Opened::Binary(BinaryForm::Pair, part, later) = rest.open() {
        let value = emit(alloc, walk, around, next, Goal::Then, part)?;
        wait(&mut waiting, value)?;
        next = value.filled;
        rest = later;
    }
    let last = emit(alloc, walk, around, next, Goal::Then, rest)?;
    pair_up(walk, waiting, last, goal)
}

/// A node's code, and its value.
#[cycle(emit)]
pub(crate) fn emit(
    alloc: Global,
    walk: &mut Walk,
    around: Around,
    filled: u32,
    goal: Goal,
    node: &Node,
) -> Result<Value, AllocError>
    requires { IsTrue (in_text node.now) }
    ensures { IfOk result (Emits walk.old walk.new around filled goal node.now) }
{
    match node.open() {
        Opened::Leaf(form) => emit_leaf(alloc, walk, around, filled, goal, form),
        Opened::Unary(form, first) => match form {
            UnaryView::Fn(_, _) | UnaryView::Rec(_, _, _, _) => {
                emit_function(alloc, walk, around, filled, goal, form, first)
            }
            UnaryView::Spawn => emit_spawn(alloc, walk, around, filled, goal, first),
            UnaryView::Div => emit_division(alloc, walk, around, filled, goal, first),
            _ => emit_operation(alloc, walk, around, filled, goal, form, first),
        },
        Opened::Binary(form, first, second) => match way_of(form, first) {
            Way::Ask(prim) => { emit_ask(alloc, walk, around, filled, goal, prim, first, second) }
            Way::Pairs => emit_pairs(alloc, walk, around, filled, goal, first, second),
            Way::Get => emit_get(alloc, walk, around, filled, goal, first, second),
            Way::Let => { emit_let(alloc, walk, around, filled, goal, form, first, second) }
            Way::Two => { emit_two(alloc, walk, around, filled, goal, form, first, second) }
        },
        Opened::Ternary(form, first, second, third) => {
            emit_choice(
                alloc, walk, around, filled, goal, form, first, second, third,
            )
        }
    }
}
