//! Operators, and what is made of numbers.

ghost use Rattle.std.specs.Prelude.{◌≡◌, ◌++◌, ◌+ℤ◌, ◌-ℤ◌, IfOk, ◌≢◌, pos};
ghost use Rattle.std.specs.Fmt.{signed_decimal};
ghost use Rattle.m5_terms.specs.Expression.{leaf, binary};
ghost use Rattle.m5_terms.specs.declared.form.LeafForm.TheVariants as leaf_form;
ghost use Rattle.m5_terms.specs.declared.form.BinaryForm.TheVariants as binary_form;
ghost use Rattle.m5_meaning.specs.Numbers.{wrapped, quotient};
ghost use Rattle.m5_terms.specs.TypeExpression as type;
ghost use Rattle.m5_meaning.specs.Reduction.{operated, text_of_number, divided, unit_or};
ghost use Rattle.m5_source_site.specs.Reductions.{reduction_of};

use crate::reduced::Reduced;
use m5_terms::form::{BinaryForm, LeafForm, UnaryForm};
use m5_terms::node::{Node, NodeBox};
use m5_terms::opened::{LeafView, Opened};
use m5_terms::text::Text;
use m5_terms::types::{Op, Shape, Ty, TypeBox};
use std::alloc::{AllocError, Global};

/// The sum, wrapped.
fn sum_of(first: i64, second: i64) -> i64
    ensures { result ≡ wrapped (first +ℤ second) }
{
    first.wrapping_add(second)
}

/// The difference, wrapped.
fn difference_of(first: i64, second: i64) -> i64
    ensures { result ≡ wrapped (first -ℤ second) }
{
    first.wrapping_sub(second)
}

fn on_numbers(op: Op, first: i64, second: i64) -> Reduced
    ensures { reduction_of result ≡ operated op (leaf (leaf_form.Int first)) (leaf (leaf_form.Int second)) }
{
    match op {
        Op::Add => Reduced::Gives(Node::leaf(LeafForm::Int(sum_of(first, second)))),
        Op::Sub => Reduced::Gives(Node::leaf(LeafForm::Int(difference_of(first, second)))),
        Op::Mul => Reduced::Gives(Node::leaf(LeafForm::Int(first.wrapping_mul(second)))),
        Op::EqInt => Reduced::Gives(Node::leaf(LeafForm::Bool(first == second))),
        Op::Less => Reduced::Gives(Node::leaf(LeafForm::Bool(first < second))),
        Op::Cat | Op::EqStr => Reduced::Wrong,
    }
}

/// The two texts as one.
fn joined(alloc: Global, first: &Text, second: &Text) -> Result<Text, AllocError>
    ensures { IfOk result (λ t. t ≡ first.now ++ second.now) }
{
    let mut bytes = Vec::from_slice(alloc, first.bytes())?;
    bytes.extend_from_slice(second.bytes())?;
    Text::of(alloc, bytes.as_slice())
}

fn on_texts(alloc: Global, op: Op, first: &Text, second: &Text) -> Result<Reduced, AllocError>
    ensures { IfOk result (λ r. reduction_of r ≡ operated op (leaf (leaf_form.Str first.now)) (leaf (leaf_form.Str second.now))) }
{
    match op {
        Op::Cat => Ok(Reduced::MakesText(joined(alloc, first, second)?)),
        Op::EqStr => {
            let same = first.bytes() == second.bytes();
            Ok(Reduced::Gives(Node::leaf(LeafForm::Bool(same))))
        }
        Op::Add | Op::Sub | Op::Mul | Op::EqInt | Op::Less => Ok(Reduced::Wrong),
    }
}

/// What an operator makes of two values.
pub(crate) fn operate(
    alloc: Global,
    op: Op,
    first: &Node,
    second: &Node,
) -> Result<Reduced, AllocError>
    ensures { IfOk result (λ r. reduction_of r ≡ operated op first.now second.now) }
{
    match first.open() {
        Opened::Leaf(LeafView::Int(m)) => match second.open() {
            Opened::Leaf(LeafView::Int(n)) => Ok(on_numbers(op, m, n)),
            _ => Ok(Reduced::Wrong),
        },
        Opened::Leaf(LeafView::Str(s)) => match second.open() {
            Opened::Leaf(LeafView::Str(t)) => on_texts(alloc, op, s, t),
            _ => Ok(Reduced::Wrong),
        },
        _ => Ok(Reduced::Wrong),
    }
}

/// The decimal text of a number.
pub(crate) fn write_number(alloc: Global, value: &Node) -> Result<Reduced, AllocError>
    ensures { IfOk result (λ r. reduction_of r ≡ text_of_number value.now) }
{
    match value.open() {
        Opened::Leaf(LeafView::Int(number)) => {
            let digits = number.to_string(alloc)?;
            Ok(Reduced::MakesText(Text::of(alloc, digits.as_bytes())?))
        }
        _ => Ok(Reduced::Wrong),
    }
}

/// The type of unit or an integer.
fn unit_or_int(alloc: Global) -> Result<Ty, AllocError>
    ensures { IfOk result (λ t. t ≡ unit_or type.int) }
{
    let left = TypeBox::new(alloc, Ty::new(Shape::Unit))?;
    Ok(Ty::new(Shape::Sum(left, TypeBox::new(alloc, Ty::new(Shape::Int))?)))
}

fn quotient_of(first: i64, second: i64) -> i64
    requires { second ≢ pos 0 }
    ensures { result ≡ quotient first second }
{
    if second == -1 {
        first.wrapping_neg()
    } else {
        first.wrapping_div(second)
    }
}

fn divide_numbers(alloc: Global, first: i64, second: i64) -> Result<Reduced, AllocError>
    ensures { IfOk result (λ r. reduction_of r ≡ divided (binary binary_form.Pair (leaf (leaf_form.Int first)) (leaf (leaf_form.Int second)))) }
{
    let ty = unit_or_int(alloc)?;
    if second == 0 {
        let unit = NodeBox::new(alloc, Node::leaf(LeafForm::Unit))?;
        Ok(Reduced::Gives(Node::unary(UnaryForm::Inl(ty), unit)))
    } else {
        let result = Node::leaf(LeafForm::Int(quotient_of(first, second)));
        Ok(Reduced::Gives(Node::unary(UnaryForm::Inr(ty), NodeBox::new(alloc, result)?)))
    }
}

fn divide_pair(alloc: Global, first: &Node, second: &Node) -> Result<Reduced, AllocError>
    ensures { IfOk result (λ r. reduction_of r ≡ divided (binary binary_form.Pair first.now second.now)) }
{
    match first.open() {
        Opened::Leaf(LeafView::Int(m)) => match second.open() {
            Opened::Leaf(LeafView::Int(n)) => divide_numbers(alloc, m, n),
            _ => Ok(Reduced::Wrong),
        },
        _ => Ok(Reduced::Wrong),
    }
}

/// The quotient of a pair's numbers, or unit where the second is 0.
pub(crate) fn divide(alloc: Global, value: &Node) -> Result<Reduced, AllocError>
    ensures { IfOk result (λ r. reduction_of r ≡ divided value.now) }
{
    match value.open() {
        Opened::Binary(BinaryForm::Pair, first, second) => divide_pair(alloc, first, second),
        _ => Ok(Reduced::Wrong),
    }
}
