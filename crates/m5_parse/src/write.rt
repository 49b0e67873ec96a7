//! The types that are made of the last values.

ghost use Rattle.std.specs.Prelude.{◌≡◌, IfOk};
ghost use Rattle.m5_tree.specs.WrittenMaking.{written_made};
ghost use Rattle.m5_tree.specs.declared.grammar.WrittenForm.TheVariants.{OfBase, OfAddress, OfSham, OfSuffix, OfAt, OfJoin, Group};
ghost use Rattle.m5_parse.specs.Gives.{Gives};

use crate::pop::{pop_mark, pop_world, pop_written};
use crate::stack::Stack;
use m5_tree::form::{TypeJoin, TypePlain, TypeWrap};
use m5_tree::grammar::WrittenForm;
use m5_tree::type_expr::TypeExpr;
use m5_tree::value::Value;
use std::alloc::{AllocError, Global};

/// A type of one keyword.
#[tactic(auto, unfolding(m5_tree::specs::WrittenMaking::written_made))]
fn base(form: TypePlain, values: &mut Stack<Value>) -> Result<Option<Value>, AllocError>
    ensures { IfOk result (λ o. Gives o values.new (written_made (OfBase form) values.old)) }
{
    let Some(place) = pop_mark(values) else {
        return Ok(None);
    };
    Ok(Some(Value::Written(place, TypeExpr::plain(place, form))))
}

#[tactic(auto, unfolding(m5_tree::specs::WrittenMaking::written_made))]
fn address(values: &mut Stack<Value>) -> Result<Option<Value>, AllocError>
    ensures { IfOk result (λ o. Gives o values.new (written_made OfAddress values.old)) }
{
    let Some((place, world)) = pop_world(values) else {
        return Ok(None);
    };
    Ok(Some(Value::Written(place, TypeExpr::plain(place, TypePlain::Addr(world)))))
}

#[tactic(auto, unfolding(m5_tree::specs::WrittenMaking::written_made))]
fn sham(alloc: Global, values: &mut Stack<Value>) -> Result<Option<Value>, AllocError>
    ensures { IfOk result (λ o. Gives o values.new (written_made OfSham values.old)) }
{
    let Some((_, ty)) = pop_written(values) else {
        return Ok(None);
    };
    let Some(place) = pop_mark(values) else {
        return Ok(None);
    };
    let ty = TypeExpr::wrap(alloc, place, TypeWrap::Sham, ty)?;
    Ok(Some(Value::Written(place, ty)))
}

#[tactic(auto, unfolding(m5_tree::specs::WrittenMaking::written_made))]
fn suffix(
    alloc: Global,
    form: TypeWrap,
    values: &mut Stack<Value>,
) -> Result<Option<Value>, AllocError>
    ensures { IfOk result (λ o. Gives o values.new (written_made (OfSuffix form) values.old)) }
{
    let Some((place, ty)) = pop_written(values) else {
        return Ok(None);
    };
    let ty = TypeExpr::wrap(alloc, place, form, ty)?;
    Ok(Some(Value::Written(place, ty)))
}

#[tactic(auto, unfolding(m5_tree::specs::WrittenMaking::written_made))]
fn at(alloc: Global, values: &mut Stack<Value>) -> Result<Option<Value>, AllocError>
    ensures { IfOk result (λ o. Gives o values.new (written_made OfAt values.old)) }
{
    let Some((_, world)) = pop_world(values) else {
        return Ok(None);
    };
    let Some((place, ty)) = pop_written(values) else {
        return Ok(None);
    };
    let ty = TypeExpr::wrap(alloc, place, TypeWrap::At(world), ty)?;
    Ok(Some(Value::Written(place, ty)))
}

#[tactic(auto, unfolding(m5_tree::specs::WrittenMaking::written_made))]
fn join(
    alloc: Global,
    form: TypeJoin,
    values: &mut Stack<Value>,
) -> Result<Option<Value>, AllocError>
    ensures { IfOk result (λ o. Gives o values.new (written_made (OfJoin form) values.old)) }
{
    let Some((_, second)) = pop_written(values) else {
        return Ok(None);
    };
    let Some((place, first)) = pop_written(values) else {
        return Ok(None);
    };
    let ty = TypeExpr::join(alloc, place, form, first, second)?;
    Ok(Some(Value::Written(place, ty)))
}

/// A type in brackets has the place of the bracket, and its node keeps its own.
#[tactic(auto, unfolding(m5_tree::specs::WrittenMaking::written_made))]
fn group(values: &mut Stack<Value>) -> Result<Option<Value>, AllocError>
    ensures { IfOk result (λ o. Gives o values.new (written_made Group values.old)) }
{
    let Some((_, ty)) = pop_written(values) else {
        return Ok(None);
    };
    let Some(place) = pop_mark(values) else {
        return Ok(None);
    };
    Ok(Some(Value::Written(place, ty)))
}

/// Makes a type of the last values, which it takes, if they fit it.
pub(crate) fn write(
    alloc: Global,
    form: WrittenForm,
    values: &mut Stack<Value>,
) -> Result<Option<Value>, AllocError>
    ensures { IfOk result (λ o. Gives o values.new (written_made form values.old)) }
{
    match form {
        WrittenForm::OfBase(form) => base(form, values),
        WrittenForm::OfAddress => address(values),
        WrittenForm::OfSham => sham(alloc, values),
        WrittenForm::OfSuffix(form) => suffix(alloc, form, values),
        WrittenForm::OfAt => at(alloc, values),
        WrittenForm::OfJoin(form) => join(alloc, form, values),
        WrittenForm::Group => group(values),
    }
}
