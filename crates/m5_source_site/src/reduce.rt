//! What a node becomes whose evaluated parts are values.

ghost use Rattle.std.specs.Prelude.{◌≡◌, ℕ, IfOk, MatchOption, slice_get};
ghost use Rattle.m5_terms.specs.Expression.{unary, binary};
ghost use Rattle.m5_terms.specs.Opened.{viewed_unary};
ghost use Rattle.m5_terms.specs.Closed.{IsClosed};
ghost use Rattle.m5_terms.specs.Substitution.{substituted};
ghost use Rattle.m5_terms.specs.declared.form.BinaryForm.TheVariants as binary_form;
ghost use Rattle.m5_meaning.specs.Reduction as reduction;
ghost use Rattle.m5_meaning.specs.Reduction.{gives, goes_on, called, called_function, first_of, second_of, at_cell, loads, stores, got, unheld, unsham, reduced_unary, reduced_binary, chosen, case_of_sum, case_of_list, reduced_ternary};
ghost use Rattle.m5_source_site.specs.Reductions.{reduction_of, wrapped_by};

use crate::measured::MeasuredProgram;
use crate::operate::{divide, operate, write_number};
use crate::primitives::call_extern;
use crate::reduced::Reduced;
use m5_terms::form::{BinaryForm, TernaryForm, UnaryForm};
use m5_terms::node::{Node, NodeBox};
use m5_terms::opened::{LeafView, Opened, UnaryView};
use m5_terms::substitute::substitute;
use m5_terms::types::{World, is_same_world};
use std::alloc::{AllocError, Global};

/// The body with the value for the variable, to go on with.
fn bind(alloc: Global, variable: u32, value: &Node, body: &Node) -> Result<Reduced, AllocError>
    requires { IsClosed value.now }
    ensures { IfOk result (λ r. reduction_of r ≡ goes_on (substituted variable value.now body.now)) }
{
    Ok(Reduced::GoesOn(substitute(alloc, variable, value, body)?))
}

/// The body with two values, the one of the inner variable first.
fn bind_both(
    alloc: Global,
    outer: (u32, &Node),
    inner: (u32, &Node),
    body: &Node,
) -> Result<Reduced, AllocError>
    requires outer { IsClosed outer.1.now }
    requires inner { IsClosed inner.1.now }
    ensures { IfOk result (λ r. reduction_of r ≡ goes_on (substituted outer.entry.0 outer.entry.1.now (substituted inner.entry.0 inner.entry.1.now body.now))) }
{
    let (variable, value) = inner;
    let filled = substitute(alloc, variable, value, body)?;
    let (variable, value) = outer;
    bind(alloc, variable, value, &filled)
}

fn call_declared(
    alloc: Global,
    program: &MeasuredProgram<'_>,
    number: u32,
    argument: &Node,
) -> Result<Reduced, AllocError>
    requires { IsClosed argument.now }
    ensures { IfOk result (λ r. reduction_of r ≡ called_function (slice_get program.now.functions number) argument.now) }
{
    match program.function(number) {
        Some(function) => bind(alloc, function.parameter, argument, &function.body),
        None => Ok(Reduced::Wrong),
    }
}

/// A call puts the argument into the body.
fn call(
    alloc: Global,
    program: &MeasuredProgram<'_>,
    function: &Node,
    argument: &Node,
) -> Result<Reduced, AllocError>
    requires function { IsClosed function.now }
    requires argument { IsClosed argument.now }
    ensures { IfOk result (λ r. reduction_of r ≡ called program.now function.now argument.now) }
{
    match function.open() {
        Opened::Leaf(LeafView::Glob(number)) => call_declared(alloc, program, number, argument),
        Opened::Leaf(LeafView::Extern(primitive)) => call_extern(alloc, primitive, argument),
        Opened::Unary(UnaryView::Fn(variable, _), body) => bind(alloc, variable, argument, body),
        Opened::Unary(UnaryView::Rec(name, variable, _, _), body) => {
            bind_both(alloc, (name, function), (variable, argument), body)
        }
        _ => Ok(Reduced::Wrong),
    }
}

/// The first part of a pair.
fn first_of_pair(alloc: Global, value: &Node) -> Result<Reduced, AllocError>
    ensures { IfOk result (λ r. reduction_of r ≡ first_of value.now) }
{
    match value.open() {
        Opened::Binary(BinaryForm::Pair, first, _) => Ok(Reduced::Gives(first.copy(alloc)?)),
        _ => Ok(Reduced::Wrong),
    }
}

/// The second part of a pair.
fn second_of_pair(alloc: Global, value: &Node) -> Result<Reduced, AllocError>
    ensures { IfOk result (λ r. reduction_of r ≡ second_of value.now) }
{
    match value.open() {
        Opened::Binary(BinaryForm::Pair, _, second) => Ok(Reduced::Gives(second.copy(alloc)?)),
        _ => Ok(Reduced::Wrong),
    }
}

/// The number of a cell of this world.
fn cell_here(world: World, cell: &Node) -> Option<u32>
    ensures { (f : ℕ → reduction.Reduced) → MatchOption result (at_cell world f cell.now ≡ reduction.wrong) (λ n. at_cell world f cell.now ≡ f n) }
{
    match cell.open() {
        Opened::Leaf(LeafView::CellAt(owner, number)) => {
            if is_same_world(owner, world) {
                Some(number)
            } else {
                None
            }
        }
        _ => None,
    }
}

fn load(world: World, cell: &Node) -> Reduced
    ensures { reduction_of result ≡ at_cell world loads cell.now }
{
    match cell_here(world, cell) {
        Some(number) => Reduced::Loads(number),
        None => Reduced::Wrong,
    }
}

fn store(alloc: Global, world: World, cell: &Node, value: &Node) -> Result<Reduced, AllocError>
    ensures { IfOk result (λ r. reduction_of r ≡ at_cell world (λ n. stores n value.now) cell.now) }
{
    match cell_here(world, cell) {
        Some(number) => Ok(Reduced::Stores(number, value.copy(alloc)?)),
        None => Ok(Reduced::Wrong),
    }
}

/// A form of one value that is a value itself, or a hold, which becomes what is held.
fn wrap(
    alloc: Global,
    world: World,
    form: &UnaryView<'_>,
    value: &Node,
) -> Result<Reduced, AllocError>
    ensures { IfOk result (λ r. reduction_of r ≡ gives (unary (wrapped_by world (viewed_unary form.now)) value.now)) }
{
    let kept = NodeBox::new(alloc, value.copy(alloc)?)?;
    match form {
        UnaryView::Hold => Ok(Reduced::Gives(Node::unary(UnaryForm::Held(world), kept))),
        other => Ok(Reduced::Gives(Node::unary(other.copy()?, kept))),
    }
}

/// A form of one part, at a site's world.
pub(crate) fn reduce_unary(
    alloc: Global,
    world: World,
    form: &UnaryView<'_>,
    value: &Node,
) -> Result<Reduced, AllocError>
    ensures { IfOk result (λ r. reduction_of r ≡ reduced_unary world (viewed_unary form.now) value.now) }
{
    match form {
        UnaryView::Fst => first_of_pair(alloc, value),
        UnaryView::Snd => second_of_pair(alloc, value),
        UnaryView::StrOf => write_number(alloc, value),
        UnaryView::Div => divide(alloc, value),
        UnaryView::NewCell => Ok(Reduced::MakesCell(value.copy(alloc)?)),
        UnaryView::Load => Ok(load(world, value)),
        other => wrap(alloc, world, other, value),
    }
}

/// A get goes on where the thread is, or leaves for another world.
fn go_to(alloc: Global, world: World, address: &Node, body: &Node) -> Result<Reduced, AllocError>
    ensures { IfOk result (λ r. reduction_of r ≡ got world address.now body.now) }
{
    match address.open() {
        Opened::Leaf(LeafView::Addr(there)) => {
            let copied = body.copy(alloc)?;
            if is_same_world(there, world) {
                Ok(Reduced::GoesOn(copied))
            } else {
                Ok(Reduced::Leaves(there, copied))
            }
        }
        _ => Ok(Reduced::Wrong),
    }
}

fn bind_held(alloc: Global, variable: u32, value: &Node, body: &Node) -> Result<Reduced, AllocError>
    requires { IsClosed value.now }
    ensures { IfOk result (λ r. reduction_of r ≡ unheld variable value.now body.now) }
{
    match value.open() {
        Opened::Unary(UnaryView::Held(_), held) => bind(alloc, variable, held, body),
        _ => Ok(Reduced::Wrong),
    }
}

fn bind_sham(alloc: Global, variable: u32, value: &Node, body: &Node) -> Result<Reduced, AllocError>
    requires { IsClosed value.now }
    ensures { IfOk result (λ r. reduction_of r ≡ unsham variable value.now body.now) }
{
    match value.open() {
        Opened::Unary(UnaryView::Sham, valid) => bind(alloc, variable, valid, body),
        _ => Ok(Reduced::Wrong),
    }
}

/// The same form over the same parts.
fn rebuilt(
    alloc: Global,
    form: BinaryForm,
    first: &Node,
    second: &Node,
) -> Result<Reduced, AllocError>
    ensures { IfOk result (λ r. reduction_of r ≡ gives (binary form first.now second.now)) }
{
    let left = NodeBox::new(alloc, first.copy(alloc)?)?;
    let right = NodeBox::new(alloc, second.copy(alloc)?)?;
    Ok(Reduced::Gives(Node::binary(form, left, right)))
}

/// A form of two parts, at a site's world.
pub(crate) fn reduce_binary(
    alloc: Global,
    program: &MeasuredProgram<'_>,
    world: World,
    form: BinaryForm,
    first: &Node,
    second: &Node,
) -> Result<Reduced, AllocError>
    requires first { IsClosed first.now }
    requires second { form ≡ binary_form.Call → IsClosed second.now }
    ensures { IfOk result (λ r. reduction_of r ≡ reduced_binary program.now world form first.now second.now) }
{
    match form {
        BinaryForm::Call => call(alloc, program, first, second),
        BinaryForm::Pair | BinaryForm::Cons => rebuilt(alloc, form, first, second),
        BinaryForm::Store => store(alloc, world, first, second),
        BinaryForm::Binary(op) => operate(alloc, op, first, second),
        BinaryForm::Do => Ok(Reduced::GoesOn(second.copy(alloc)?)),
        BinaryForm::Get => go_to(alloc, world, first, second),
        BinaryForm::Val(variable) | BinaryForm::Put(variable) => {
            bind(alloc, variable, first, second)
        }
        BinaryForm::Leta(variable) => bind_held(alloc, variable, first, second),
        BinaryForm::Lets(variable) => bind_sham(alloc, variable, first, second),
    }
}

fn choose(
    alloc: Global,
    condition: &Node,
    second: &Node,
    third: &Node,
) -> Result<Reduced, AllocError>
    ensures { IfOk result (λ r. reduction_of r ≡ chosen condition.now second.now third.now) }
{
    match condition.open() {
        Opened::Leaf(LeafView::Bool(holds)) => {
            let arm = if holds { second } else { third };
            Ok(Reduced::GoesOn(arm.copy(alloc)?))
        }
        _ => Ok(Reduced::Wrong),
    }
}

/// The arm of a value on the left or on the right.
fn open_sum(
    alloc: Global,
    variables: (u32, u32),
    value: &Node,
    second: &Node,
    third: &Node,
) -> Result<Reduced, AllocError>
    requires { IsClosed value.now }
    ensures { IfOk result (λ r. reduction_of r ≡ case_of_sum variables.0 variables.1 value.now second.now third.now) }
{
    let (left, right) = variables;
    match value.open() {
        Opened::Unary(UnaryView::Inl(_), part) => bind(alloc, left, part, second),
        Opened::Unary(UnaryView::Inr(_), part) => bind(alloc, right, part, third),
        _ => Ok(Reduced::Wrong),
    }
}

/// The arm of an empty list, or that of a head and a tail.
fn open_list(
    alloc: Global,
    variables: (u32, u32),
    value: &Node,
    second: &Node,
    third: &Node,
) -> Result<Reduced, AllocError>
    requires { IsClosed value.now }
    ensures { IfOk result (λ r. reduction_of r ≡ case_of_list variables.0 variables.1 value.now second.now third.now) }
{
    let (head, tail) = variables;
    match value.open() {
        Opened::Leaf(LeafView::Nil(_)) => Ok(Reduced::GoesOn(second.copy(alloc)?)),
        Opened::Binary(BinaryForm::Cons, item, others) => {
            bind_both(alloc, (head, item), (tail, others), third)
        }
        _ => Ok(Reduced::Wrong),
    }
}

/// A form of three parts.
pub(crate) fn reduce_ternary(
    alloc: Global,
    form: TernaryForm,
    value: &Node,
    second: &Node,
    third: &Node,
) -> Result<Reduced, AllocError>
    requires { IsClosed value.now }
    ensures { IfOk result (λ r. reduction_of r ≡ reduced_ternary form value.now second.now third.now) }
{
    match form {
        TernaryForm::If => choose(alloc, value, second, third),
        TernaryForm::CaseSum(left, right) => {
            open_sum(alloc, (left, right), value, second, third)
        }
        TernaryForm::CaseList(head, tail) => {
            open_list(alloc, (head, tail), value, second, third)
        }
    }
}
