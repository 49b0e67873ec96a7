//! The expressions without parts, and those between brackets, that are made of the last values.

ghost use Rattle.std.specs.Prelude.{◌≡◌, IfOk};
ghost use Rattle.m5_tree.specs.ExprMaking.{expr_made};
ghost use Rattle.m5_tree.specs.declared.grammar.ExprForm.TheVariants.{OfName, OfNumber, OfLiteral, OfPlain, OfNil, NoParts, AddPart, OfTuple, Group};
ghost use Rattle.m5_parse.specs.Gives.{Gives};
ghost use Rattle.m5_tree.specs.Words.{leaf_of};

use crate::pop::{pop_expr, pop_literal, pop_mark, pop_name, pop_number, pop_parts, pop_written};
use crate::stack::Stack;
use m5_terms::types::World;
use m5_tree::expr::{Expr, Part, Parts};
use m5_tree::form::LeafForm;
use m5_tree::grammar::Plain;
use m5_tree::value::Value;
use std::alloc::{AllocError, Global};

/// The form of a keyword.
fn leaf_form(word: Plain) -> LeafForm
    ensures { result ≡ leaf_of word }
{
    match word {
        Plain::True => LeafForm::Bool(true),
        Plain::False => LeafForm::Bool(false),
        Plain::Here => LeafForm::Here,
        Plain::Home => LeafForm::Addr(World::Home),
        Plain::Server => LeafForm::Addr(World::Server),
        Plain::Panel => LeafForm::Addr(World::Panel),
    }
}

#[tactic(auto, unfolding(m5_tree::specs::ExprMaking::expr_made))]
pub(crate) fn name_of(values: &mut Stack<Value>) -> Result<Option<Value>, AllocError>
    ensures { IfOk result (λ o. Gives o values.new (expr_made OfName values.old)) }
{
    let Some((place, name)) = pop_name(values) else {
        return Ok(None);
    };
    Ok(Some(Value::Expr(place, Expr::leaf(place, LeafForm::Name(name)))))
}

#[tactic(auto, unfolding(m5_tree::specs::ExprMaking::expr_made))]
pub(crate) fn number_of(values: &mut Stack<Value>) -> Result<Option<Value>, AllocError>
    ensures { IfOk result (λ o. Gives o values.new (expr_made OfNumber values.old)) }
{
    let Some((place, number)) = pop_number(values) else {
        return Ok(None);
    };
    Ok(Some(Value::Expr(place, Expr::leaf(place, LeafForm::Number(number)))))
}

#[tactic(auto, unfolding(m5_tree::specs::ExprMaking::expr_made))]
pub(crate) fn literal_of(values: &mut Stack<Value>) -> Result<Option<Value>, AllocError>
    ensures { IfOk result (λ o. Gives o values.new (expr_made OfLiteral values.old)) }
{
    let Some((place, text)) = pop_literal(values) else {
        return Ok(None);
    };
    Ok(Some(Value::Expr(place, Expr::leaf(place, LeafForm::Str(text)))))
}

#[tactic(auto, unfolding(m5_tree::specs::ExprMaking::expr_made))]
pub(crate) fn plain(word: Plain, values: &mut Stack<Value>) -> Result<Option<Value>, AllocError>
    ensures { IfOk result (λ o. Gives o values.new (expr_made (OfPlain word) values.old)) }
{
    let Some(place) = pop_mark(values) else {
        return Ok(None);
    };
    Ok(Some(Value::Expr(place, Expr::leaf(place, leaf_form(word)))))
}

#[tactic(auto, unfolding(m5_tree::specs::ExprMaking::expr_made))]
pub(crate) fn nil(values: &mut Stack<Value>) -> Result<Option<Value>, AllocError>
    ensures { IfOk result (λ o. Gives o values.new (expr_made OfNil values.old)) }
{
    let Some((_, ty)) = pop_written(values) else {
        return Ok(None);
    };
    let Some(place) = pop_mark(values) else {
        return Ok(None);
    };
    Ok(Some(Value::Expr(place, Expr::leaf(place, LeafForm::Nil(ty)))))
}

#[tactic(auto, unfolding(m5_tree::specs::ExprMaking::expr_made))]
pub(crate) fn no_parts(
    alloc: Global,
    values: &mut Stack<Value>,
) -> Result<Option<Value>, AllocError>
    ensures { IfOk result (λ o. Gives o values.new (expr_made NoParts values.old)) }
{
    Ok(Some(Value::Parts(Parts::new(alloc))))
}

#[tactic(auto, unfolding(m5_tree::specs::ExprMaking::expr_made))]
pub(crate) fn add_part(values: &mut Stack<Value>) -> Result<Option<Value>, AllocError>
    ensures { IfOk result (λ o. Gives o values.new (expr_made AddPart values.old)) }
{
    let Some((place, expr)) = pop_expr(values) else {
        return Ok(None);
    };
    let Some(mut parts) = pop_parts(values) else {
        return Ok(None);
    };
    parts.push(Part { place, expr })?;
    Ok(Some(Value::Parts(parts)))
}

#[tactic(auto, unfolding(m5_tree::specs::ExprMaking::expr_made))]
pub(crate) fn tuple(values: &mut Stack<Value>) -> Result<Option<Value>, AllocError>
    ensures { IfOk result (λ o. Gives o values.new (expr_made OfTuple values.old)) }
{
    let Some(parts) = pop_parts(values) else {
        return Ok(None);
    };
    let Some(place) = pop_mark(values) else {
        return Ok(None);
    };
    Ok(Some(Value::Expr(place, Expr::tuple(place, parts))))
}

/// An expression in brackets has the place of the bracket, and its node keeps its own.
#[tactic(auto, unfolding(m5_tree::specs::ExprMaking::expr_made))]
pub(crate) fn group(values: &mut Stack<Value>) -> Result<Option<Value>, AllocError>
    ensures { IfOk result (λ o. Gives o values.new (expr_made Group values.old)) }
{
    let Some((_, expr)) = pop_expr(values) else {
        return Ok(None);
    };
    let Some(place) = pop_mark(values) else {
        return Ok(None);
    };
    Ok(Some(Value::Expr(place, expr)))
}
