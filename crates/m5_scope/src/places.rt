//! The places of all nodes, in the order of the text.

ghost use Rattle.std.specs.Prelude.{◌≡◌, ◌++◌, OnOk};
ghost use Rattle.m5_tree.specs.Tuple.{pairs};
ghost use Rattle.m5_scope.specs.Places.{type_places, leaf_places, unary_places, places};

use m5_lex::Place;
use m5_terms::listed::Listed;
use m5_tree::expr::{Expr, Part, Shape};
use m5_tree::form::{LeafForm, UnaryForm};
use m5_tree::type_expr::{TypeExpr, TypeShape};
use std::alloc::AllocError;

/// Adds the places of a written type's nodes.
pub(crate) fn of_type(ty: &TypeExpr, list: &mut Listed<Place>) -> Result<(), AllocError>
    ensures { OnOk result (list.new ≡ list.old ++ type_places ty.now) }
{
    list.push(ty.place)?;
    match &ty.shape {
        TypeShape::Plain(_) => Ok(()),
        TypeShape::Wrap(_, part) => of_type(part.get(), list),
        TypeShape::Join(_, first, second) => {
            of_type(first.get(), list)?;
            of_type(second.get(), list)
        }
    }
}

fn of_leaf(form: &LeafForm, list: &mut Listed<Place>) -> Result<(), AllocError>
    ensures { OnOk result (list.new ≡ list.old ++ leaf_places form.now) }
{
    match form {
        LeafForm::Nil(ty) => of_type(ty, list),
        _ => Ok(()),
    }
}

fn of_unary(form: &UnaryForm, list: &mut Listed<Place>) -> Result<(), AllocError>
    ensures { OnOk result (list.new ≡ list.old ++ unary_places form.now) }
{
    match form {
        UnaryForm::Fn(_, ty) | UnaryForm::Inl(ty) | UnaryForm::Inr(ty) => of_type(ty, list),
        UnaryForm::Rec(_, _, ty, codomain) => {
            of_type(ty, list)?;
            of_type(codomain, list)
        }
        _ => Ok(()),
    }
}

/// Adds those of a tuple whose first part is given apart, and which has this place.
#[cycle(of_expr)]
#[tactic(auto, using(crate::proofs::Measures::later_weighs, crate::proofs::Measures::part_weighs, crate::proofs::Measures::tuple_weighs))]
fn of_pairs(
    place: Place,
    first: &Expr,
    parts: &[Part],
    list: &mut Listed<Place>,
) -> Result<(), AllocError>
    ensures { OnOk result (list.new ≡ list.old ++ places (pairs place first.now parts.now)) }
{
    match parts.split_first() {
        None => of_expr(first, list),
        Some((part, parts)) => {
            list.push(place)?;
            of_expr(first, list)?;
            of_pairs(part.place, &part.expr, parts, list)
        }
    }
}

/// Adds the places of an expression's nodes.
#[cycle(of_expr)]
#[tactic(auto, using(crate::proofs::Measures::later_weighs, crate::proofs::Measures::part_weighs, crate::proofs::Measures::tuple_weighs))]
pub(crate) fn of_expr(expr: &Expr, list: &mut Listed<Place>) -> Result<(), AllocError>
    ensures { OnOk result (list.new ≡ list.old ++ places expr.now) }
{
    match &expr.shape {
        Shape::Leaf(form) => {
            list.push(expr.place)?;
            of_leaf(form, list)
        }
        Shape::Unary(form, first) => {
            list.push(expr.place)?;
            of_unary(form, list)?;
            of_expr(first.get(), list)
        }
        Shape::Binary(_, first, second) => {
            list.push(expr.place)?;
            of_expr(first.get(), list)?;
            of_expr(second.get(), list)
        }
        Shape::Ternary(_, first, second, third) => {
            list.push(expr.place)?;
            of_expr(first.get(), list)?;
            of_expr(second.get(), list)?;
            of_expr(third.get(), list)
        }
        Shape::Tuple(parts) => match parts.split_first() {
            None => list.push(expr.place),
            Some((part, parts)) => of_pairs(expr.place, &part.expr, parts, list),
        },
    }
}
