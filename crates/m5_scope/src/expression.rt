//! The resolved terms of expressions.

ghost use Rattle.std.specs.Prelude.{◌≡◌, ◌+◌, ◌<◌, ◌^◌, IfErr, IfOk, OnOk};
ghost use Rattle.m5_tree.specs.Syntax.{unary, binary, ternary};
ghost use Rattle.m5_tree.specs.Tuple.{pairs};
ghost use Rattle.m5_scope.specs.Meaning.{entered, known};
ghost use Rattle.m5_terms.specs.Outcome.{found};
ghost use Rattle.m5_scope.specs.Resolving.{IsFault, binders, leaf_resolved, resolved};

use crate::end::ScopeEnd;
use crate::forms::{
    binary_form, in_binary, in_second, in_third, in_unary, ternary_form, unary_form,
};
use crate::meaning::{Meaning, meaning_of, use_form};
use crate::tuple::{add_head, pairs_of};
use crate::written::written;
use m5_lex::Place;
use m5_raw::node::{Node, NodeBox};
use m5_terms::form::LeafForm;
use m5_terms::table::{Binding, Table};
use m5_terms::text::is_text;
use m5_tree::expr::{Expr, Part, Shape};
use m5_tree::form::{
    BinaryForm as BinaryTree, LeafForm as LeafTree, TernaryForm as TernaryTree,
    UnaryForm as UnaryTree,
};
use std::alloc::Global;

const LARGEST: u64 = 9_223_372_036_854_775_807;

/// A form without parts. No text has a number above the largest or another byte in a literal.
fn leaf_form(
    alloc: Global,
    table: &Table<Meaning>,
    place: Place,
    form: &LeafTree,
) -> Result<LeafForm, ScopeEnd>
    ensures value { IfOk result (λ f. leaf_resolved (known table.now) place form.now ≡ found f) }
    ensures fault { IfErr result (IsFault (leaf_resolved (known table.now) place form.now)) }
{
    match form {
        LeafTree::Name(name) => match meaning_of(table, *name) {
            None => Err(ScopeEnd::Unbound(place)),
            Some(meaning) => Ok(use_form(meaning)),
        },
        LeafTree::Number(number) => {
            if *number > LARGEST {
                return Err(ScopeEnd::Memory);
            }
            Ok(LeafForm::Int(*number as i64))
        }
        LeafTree::Str(text) => {
            if !is_text(text.bytes()) {
                return Err(ScopeEnd::Memory);
            }
            Ok(LeafForm::Str(text.copy(alloc)?))
        }
        LeafTree::Bool(truth) => Ok(LeafForm::Bool(*truth)),
        LeafTree::Unit => Ok(LeafForm::Unit),
        LeafTree::Addr(world) => Ok(LeafForm::Addr(*world)),
        LeafTree::Here => Ok(LeafForm::Here),
        LeafTree::Nil(ty) => Ok(LeafForm::Nil(written(alloc, ty)?)),
    }
}

/// A part in which the names of a form are bound. The table is then as before.
#[cycle(expression)]
pub(crate) fn within(
    alloc: Global,
    table: &mut Table<Meaning>,
    next: &mut u32,
    binding: Binding<Meaning>,
    expr: &Expr,
) -> Result<NodeBox, ScopeEnd>
    requires { next.old + binders expr.now < 2 ^ 32 }
    ensures value { IfOk result (λ x. resolved (entered (known table.old) binding) next.old expr.now ≡ found x) }
    ensures next { OnOk result (next.new ≡ next.old + binders expr.now) }
    ensures table { OnOk result (known table.new ≡ known table.old) }
    ensures fault { IfErr result (IsFault (resolved (entered (known table.old) binding) next.old expr.now)) }
{
    let hidden = table.enter(binding)?;
    let node = expression(alloc, table, next, expr)?;
    table.leave(hidden)?;
    Ok(NodeBox::new(alloc, node)?)
}

#[cycle(expression)]
fn of_unary(
    alloc: Global,
    table: &mut Table<Meaning>,
    next: &mut u32,
    place: Place,
    form: &UnaryTree,
    first: &Expr,
) -> Result<Node, ScopeEnd>
    requires { next.old + binders (unary place form.now first.now) < 2 ^ 32 }
    ensures value { IfOk result (λ x. resolved (known table.old) next.old (unary place form.now first.now) ≡ found x) }
    ensures next { OnOk result (next.new ≡ next.old + binders (unary place form.now first.now)) }
    ensures table { OnOk result (known table.new ≡ known table.old) }
    ensures fault { IfErr result (IsFault (resolved (known table.old) next.old (unary place form.now first.now))) }
{
    let (binding, count) = in_unary(*next, form);
    let resolved = unary_form(alloc, *next, form)?;
    *next += count;
    let first = within(alloc, table, next, binding, first)?;
    Ok(Node::unary(place, resolved, first))
}

#[cycle(expression)]
fn of_binary(
    alloc: Global,
    table: &mut Table<Meaning>,
    next: &mut u32,
    place: Place,
    form: BinaryTree,
    first: &Expr,
    second: &Expr,
) -> Result<Node, ScopeEnd>
    requires { next.old + binders (binary place form first.now second.now) < 2 ^ 32 }
    ensures value { IfOk result (λ x. resolved (known table.old) next.old (binary place form first.now second.now) ≡ found x) }
    ensures next { OnOk result (next.new ≡ next.old + binders (binary place form first.now second.now)) }
    ensures table { OnOk result (known table.new ≡ known table.old) }
    ensures fault { IfErr result (IsFault (resolved (known table.old) next.old (binary place form first.now second.now))) }
{
    let (binding, count) = in_binary(*next, form);
    let resolved = binary_form(*next, form);
    *next += count;
    let first = within(alloc, table, next, Binding::Nothing, first)?;
    let second = within(alloc, table, next, binding, second)?;
    Ok(Node::binary(place, resolved, first, second))
}

#[cycle(expression)]
fn of_ternary(
    alloc: Global,
    table: &mut Table<Meaning>,
    next: &mut u32,
    place: Place,
    form: TernaryTree,
    first: &Expr,
    second: &Expr,
    third: &Expr,
) -> Result<Node, ScopeEnd>
    requires { next.old + binders (ternary place form first.now second.now third.now) < 2 ^ 32 }
    ensures value { IfOk result (λ x. resolved (known table.old) next.old (ternary place form first.now second.now third.now) ≡ found x) }
    ensures next { OnOk result (next.new ≡ next.old + binders (ternary place form first.now second.now third.now)) }
    ensures table { OnOk result (known table.new ≡ known table.old) }
    ensures fault { IfErr result (IsFault (resolved (known table.old) next.old (ternary place form first.now second.now third.now))) }
{
    let first = within(alloc, table, next, Binding::Nothing, first)?;
    let before_second = *next;
    let (binding, count) = in_second(before_second, form);
    *next += count;
    let second = within(alloc, table, next, binding, second)?;
    let before_third = *next;
    let (binding, count) = in_third(before_third, form);
    *next += count;
    let third = within(alloc, table, next, binding, third)?;
    let resolved = ternary_form(before_second, before_third, form);
    Ok(Node::ternary(place, resolved, first, second, third))
}

/// A tuple whose first part is given apart, and which has this place. No call nests for each of its parts.
#[cycle(expression)]
#[tactic(auto, using(crate::proofs::Spine::partway_start, crate::proofs::Spine::partway_few, crate::proofs::Spine::partway_weighs, crate::proofs::Spine::partway_end, crate::proofs::Spine::partway_fault))]
fn of_pairs(
    alloc: Global,
    table: &mut Table<Meaning>,
    next: &mut u32,
    place: Place,
    first: &Expr,
    parts: &[Part],
) -> Result<NodeBox, ScopeEnd>
    requires { next.old + binders (pairs place first.now parts.now) < 2 ^ 32 }
    ensures value { IfOk result (λ x. resolved (known table.old) next.old (pairs place first.now parts.now) ≡ found x) }
    ensures next { OnOk result (next.new ≡ next.old + binders (pairs place first.now parts.now)) }
    ensures table { OnOk result (known table.new ≡ known table.old) }
    ensures fault { IfErr result (IsFault (resolved (known table.old) next.old (pairs place first.now parts.now))) }
{
    let mut heads = Vec::new(alloc);
    let mut at = place;
    let mut expr = first;
    let mut rest = parts;
    while let Some((part, more)) = rest.split_first() {
        let node = within(alloc, table, next, Binding::Nothing, expr)?;
        add_head(&mut heads, at, node)?;
        at = part.place;
        expr = &part.expr;
        rest = more;
    }
    let last = within(alloc, table, next, Binding::Nothing, expr)?;
    Ok(pairs_of(alloc, heads, last)?)
}

/// The resolved term of an expression, whose binders have the numbers from `next` on. The table is then as before.
#[cycle(expression)]
#[tactic(auto, using(crate::proofs::Measures::later_weighs, crate::proofs::Measures::part_weighs, crate::proofs::Measures::tuple_weighs))]
pub(crate) fn expression(
    alloc: Global,
    table: &mut Table<Meaning>,
    next: &mut u32,
    expr: &Expr,
) -> Result<Node, ScopeEnd>
    requires { next.old + binders expr.now < 2 ^ 32 }
    ensures value { IfOk result (λ x. resolved (known table.old) next.old expr.now ≡ found x) }
    ensures next { OnOk result (next.new ≡ next.old + binders expr.now) }
    ensures table { OnOk result (known table.new ≡ known table.old) }
    ensures fault { IfErr result (IsFault (resolved (known table.old) next.old expr.now)) }
{
    match &expr.shape {
        Shape::Leaf(form) => Ok(Node::leaf(expr.place, leaf_form(alloc, table, expr.place, form)?)),
        Shape::Unary(form, first) => { of_unary(alloc, table, next, expr.place, form, first.get()) }
        Shape::Binary(form, first, second) => {
            of_binary(
                alloc,
                table,
                next,
                expr.place,
                *form,
                first.get(),
                second.get(),
            )
        }
        Shape::Ternary(form, first, second, third) => of_ternary(
            alloc,
            table,
            next,
            expr.place,
            *form,
            first.get(),
            second.get(),
            third.get(),
        ),
        Shape::Tuple(parts) => match parts.split_first() {
            None => Ok(Node::leaf(expr.place, LeafForm::Unit)),
            Some((part, parts)) => {
                let node = of_pairs(alloc, table, next, expr.place, &part.expr, parts)?;
                Ok(node.into_inner())
            }
        },
    }
}
