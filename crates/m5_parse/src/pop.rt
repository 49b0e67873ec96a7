//! Takes the last value where it is of the sort that is wanted.

ghost use Rattle.std.specs.Prelude.{◌≡◌, None, Some, MatchOption};
ghost use Rattle.m5_tree.specs.Values.{declared, expr, literal, mark, name, number, parts, whole, world, written};

use crate::stack::Stack;
use m5_lex::Place;
use m5_terms::text::Text;
use m5_terms::types::World;
use m5_tree::expr::{Expr, Parts};
use m5_tree::tree::{Declarations, Program};
use m5_tree::type_expr::TypeExpr;
use m5_tree::value::Value;

pub(crate) fn pop_mark(values: &mut Stack<Value>) -> Option<Place>
    ensures { MatchOption result (mark values.old ≡ None) (λ x. mark values.old ≡ Some (x, values.new)) }
{
    match values.pop() {
        Some(Value::Mark(place)) => Some(place),
        Some(_) | None => None,
    }
}

pub(crate) fn pop_name(values: &mut Stack<Value>) -> Option<(Place, usize)>
    ensures { MatchOption result (name values.old ≡ None) (λ x. name values.old ≡ Some (x.0, x.1, values.new)) }
{
    match values.pop() {
        Some(Value::Name(place, content)) => Some((place, content)),
        Some(_) | None => None,
    }
}

pub(crate) fn pop_number(values: &mut Stack<Value>) -> Option<(Place, u64)>
    ensures { MatchOption result (number values.old ≡ None) (λ x. number values.old ≡ Some (x.0, x.1, values.new)) }
{
    match values.pop() {
        Some(Value::Number(place, content)) => Some((place, content)),
        Some(_) | None => None,
    }
}

pub(crate) fn pop_literal(values: &mut Stack<Value>) -> Option<(Place, Text)>
    ensures { MatchOption result (literal values.old ≡ None) (λ x. literal values.old ≡ Some (x.0, x.1, values.new)) }
{
    match values.pop() {
        Some(Value::Literal(place, content)) => Some((place, content)),
        Some(_) | None => None,
    }
}

pub(crate) fn pop_world(values: &mut Stack<Value>) -> Option<(Place, World)>
    ensures { MatchOption result (world values.old ≡ None) (λ x. world values.old ≡ Some (x.0, x.1, values.new)) }
{
    match values.pop() {
        Some(Value::World(place, content)) => Some((place, content)),
        Some(_) | None => None,
    }
}

pub(crate) fn pop_written(values: &mut Stack<Value>) -> Option<(Place, TypeExpr)>
    ensures { MatchOption result (written values.old ≡ None) (λ x. written values.old ≡ Some (x.0, x.1, values.new)) }
{
    match values.pop() {
        Some(Value::Written(place, content)) => Some((place, content)),
        Some(_) | None => None,
    }
}

pub(crate) fn pop_expr(values: &mut Stack<Value>) -> Option<(Place, Expr)>
    ensures { MatchOption result (expr values.old ≡ None) (λ x. expr values.old ≡ Some (x.0, x.1, values.new)) }
{
    match values.pop() {
        Some(Value::Expr(place, content)) => Some((place, content)),
        Some(_) | None => None,
    }
}

pub(crate) fn pop_parts(values: &mut Stack<Value>) -> Option<Parts>
    ensures { MatchOption result (parts values.old ≡ None) (λ x. parts values.old ≡ Some (x, values.new)) }
{
    match values.pop() {
        Some(Value::Parts(content)) => Some(content),
        Some(_) | None => None,
    }
}

pub(crate) fn pop_declared(values: &mut Stack<Value>) -> Option<Declarations>
    ensures { MatchOption result (declared values.old ≡ None) (λ x. declared values.old ≡ Some (x, values.new)) }
{
    match values.pop() {
        Some(Value::Declared(content)) => Some(content),
        Some(_) | None => None,
    }
}

pub(crate) fn pop_whole(values: &mut Stack<Value>) -> Option<Program>
    ensures { MatchOption result (whole values.old ≡ None) (λ x. whole values.old ≡ Some (x, values.new)) }
{
    match values.pop() {
        Some(Value::Whole(content)) => Some(content),
        Some(_) | None => None,
    }
}
