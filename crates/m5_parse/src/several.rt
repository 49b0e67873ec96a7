//! The expressions of two and three parts that are made of the last values.

ghost use Rattle.std.specs.Prelude.{◌≡◌, IfOk};
ghost use Rattle.m5_tree.specs.ExprMaking.{expr_made};
ghost use Rattle.m5_tree.specs.declared.grammar.ExprForm.TheVariants.{OfInfix, OfLeading, OfBinding, OfIf, OfCaseSum, OfCaseList};
ghost use Rattle.m5_parse.specs.Gives.{Gives};
ghost use Rattle.m5_tree.specs.Words.{binary_of};

use crate::pop::{pop_expr, pop_mark, pop_name};
use crate::stack::Stack;
use m5_tree::expr::Expr;
use m5_tree::form::{BinaryForm, TernaryForm};
use m5_tree::grammar::Binding;
use m5_tree::value::Value;
use std::alloc::{AllocError, Global};

/// The form of a declaration that binds a name.
fn binary_form(word: Binding, name: usize) -> BinaryForm
    ensures { result ≡ binary_of word name }
{
    match word {
        Binding::Val => BinaryForm::Val(name),
        Binding::Put => BinaryForm::Put(name),
        Binding::Leta => BinaryForm::Leta(name),
        Binding::Lets => BinaryForm::Lets(name),
    }
}

/// The place is that of the first part.
#[tactic(auto, unfolding(m5_tree::specs::ExprMaking::expr_made))]
pub(crate) fn infix(
    alloc: Global,
    form: BinaryForm,
    values: &mut Stack<Value>,
) -> Result<Option<Value>, AllocError>
    ensures { IfOk result (λ o. Gives o values.new (expr_made (OfInfix form) values.old)) }
{
    let Some((_, second)) = pop_expr(values) else {
        return Ok(None);
    };
    let Some((place, first)) = pop_expr(values) else {
        return Ok(None);
    };
    let expr = Expr::binary(alloc, place, form, first, second)?;
    Ok(Some(Value::Expr(place, expr)))
}

#[tactic(auto, unfolding(m5_tree::specs::ExprMaking::expr_made))]
pub(crate) fn leading(
    alloc: Global,
    form: BinaryForm,
    values: &mut Stack<Value>,
) -> Result<Option<Value>, AllocError>
    ensures { IfOk result (λ o. Gives o values.new (expr_made (OfLeading form) values.old)) }
{
    let Some((_, second)) = pop_expr(values) else {
        return Ok(None);
    };
    let Some((_, first)) = pop_expr(values) else {
        return Ok(None);
    };
    let Some(place) = pop_mark(values) else {
        return Ok(None);
    };
    let expr = Expr::binary(alloc, place, form, first, second)?;
    Ok(Some(Value::Expr(place, expr)))
}

#[tactic(auto, unfolding(m5_tree::specs::ExprMaking::expr_made))]
pub(crate) fn binding(
    alloc: Global,
    word: Binding,
    values: &mut Stack<Value>,
) -> Result<Option<Value>, AllocError>
    ensures { IfOk result (λ o. Gives o values.new (expr_made (OfBinding word) values.old)) }
{
    let Some((_, second)) = pop_expr(values) else {
        return Ok(None);
    };
    let Some((_, first)) = pop_expr(values) else {
        return Ok(None);
    };
    let Some((_, name)) = pop_name(values) else {
        return Ok(None);
    };
    let Some(place) = pop_mark(values) else {
        return Ok(None);
    };
    let expr = Expr::binary(alloc, place, binary_form(word, name), first, second)?;
    Ok(Some(Value::Expr(place, expr)))
}

#[tactic(auto, unfolding(m5_tree::specs::ExprMaking::expr_made))]
pub(crate) fn choice_of(
    alloc: Global,
    values: &mut Stack<Value>,
) -> Result<Option<Value>, AllocError>
    ensures { IfOk result (λ o. Gives o values.new (expr_made OfIf values.old)) }
{
    let Some((_, third)) = pop_expr(values) else {
        return Ok(None);
    };
    let Some((_, second)) = pop_expr(values) else {
        return Ok(None);
    };
    let Some((_, first)) = pop_expr(values) else {
        return Ok(None);
    };
    let Some(place) = pop_mark(values) else {
        return Ok(None);
    };
    let expr = Expr::ternary(alloc, place, TernaryForm::If, first, second, third)?;
    Ok(Some(Value::Expr(place, expr)))
}

#[tactic(auto, unfolding(m5_tree::specs::ExprMaking::expr_made))]
pub(crate) fn case_of_sum(
    alloc: Global,
    values: &mut Stack<Value>,
) -> Result<Option<Value>, AllocError>
    ensures { IfOk result (λ o. Gives o values.new (expr_made OfCaseSum values.old)) }
{
    let Some((_, third)) = pop_expr(values) else {
        return Ok(None);
    };
    let Some((_, other)) = pop_name(values) else {
        return Ok(None);
    };
    let Some((_, second)) = pop_expr(values) else {
        return Ok(None);
    };
    let Some((_, name)) = pop_name(values) else {
        return Ok(None);
    };
    let Some((_, first)) = pop_expr(values) else {
        return Ok(None);
    };
    let Some(place) = pop_mark(values) else {
        return Ok(None);
    };
    let expr = Expr::ternary(
        alloc,
        place,
        TernaryForm::CaseSum(name, other),
        first,
        second,
        third,
    )?;
    Ok(Some(Value::Expr(place, expr)))
}

#[tactic(auto, unfolding(m5_tree::specs::ExprMaking::expr_made))]
pub(crate) fn case_of_list(
    alloc: Global,
    values: &mut Stack<Value>,
) -> Result<Option<Value>, AllocError>
    ensures { IfOk result (λ o. Gives o values.new (expr_made OfCaseList values.old)) }
{
    let Some((_, third)) = pop_expr(values) else {
        return Ok(None);
    };
    let Some((_, tail)) = pop_name(values) else {
        return Ok(None);
    };
    let Some((_, head)) = pop_name(values) else {
        return Ok(None);
    };
    let Some((_, second)) = pop_expr(values) else {
        return Ok(None);
    };
    let Some((_, first)) = pop_expr(values) else {
        return Ok(None);
    };
    let Some(place) = pop_mark(values) else {
        return Ok(None);
    };
    let expr = Expr::ternary(
        alloc,
        place,
        TernaryForm::CaseList(head, tail),
        first,
        second,
        third,
    )?;
    Ok(Some(Value::Expr(place, expr)))
}
