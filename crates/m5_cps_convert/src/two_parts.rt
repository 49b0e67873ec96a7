//! What is made of two values, and what is called or asked.

ghost use Rattle.std.specs.Prelude.{◌≡◌, List, IfOk};
ghost use Rattle.m5_terms.specs.TypeExpression.{TypeExpression};
ghost use Rattle.m5_terms.specs.declared.form.BinaryForm.TheVariants.{Call};
ghost use Rattle.m5_typing.specs.Operators.{outcome};
ghost use Rattle.m5_cps.specs.TypesByNumber.{row_type};
ghost use Rattle.m5_cps_convert.specs.code.TwoParts.{IsNoCall, WritesAsk, WritesTwo, MakesWhole};

use crate::around::taking;
use crate::closing::{hold, resume};
use crate::part_types::result_of;
use crate::types::{add_row, add_type};
use crate::walk::{Around, Goal, Value, Walk};
use crate::writing::give;
use m5_cps::step::{Ending, Step, Straight};
use m5_cps::types::{TypeRow, Types};
use m5_terms::form::BinaryForm;
use m5_terms::types::{Op, Prim};
use std::alloc::{AllocError, Global};

/// A primitive that is called directly: its block asks itself.
pub(crate) fn ask(
    alloc: Global,
    walk: &mut Walk,
    around: Around,
    prim: Prim,
    argument: Value,
    goal: Goal,
) -> Result<Value, AllocError>
    ensures { IfOk result (WritesAsk walk.old walk.new around prim argument goal) }
{
    let function = add_type(&mut walk.types, &prim.ty(alloc)?)?;
    let ty = result_of(&walk.types, function);
    let held = hold(walk, goal, argument.filled)?;
    walk.steps
        .push(Step::Ends(Ending::Ask(prim, argument.slot, held.slot)))?;
    resume(walk, held, goal, taking(around, ty), ty)
}

fn call(
    walk: &mut Walk,
    around: Around,
    function: Value,
    argument: Value,
    goal: Goal,
) -> Result<Value, AllocError>
    ensures { IfOk result (WritesTwo walk.old walk.new Call around function argument goal) }
{
    let ty = result_of(&walk.types, function.ty);
    let held = hold(walk, goal, argument.filled)?;
    walk.steps.push(Step::Ends(Ending::Call(function.slot, argument.slot, held.slot)))?;
    resume(walk, held, goal, taking(around, ty), ty)
}

/// The type of an operator's outcome.
fn outcome_row(op: Op) -> TypeRow
    ensures { (types : List TypeExpression) → row_type types result ≡ outcome op }
{
    match op {
        Op::Add | Op::Sub | Op::Mul => TypeRow::Int,
        Op::Cat => TypeRow::Str,
        Op::EqInt | Op::Less | Op::EqStr => TypeRow::Bool,
    }
}

/// The type of a form over two values that is no call.
fn whole_of(
    types: &mut Types,
    form: BinaryForm,
    first: usize,
    second: usize,
) -> Result<usize, AllocError>
    requires { IsNoCall form }
    ensures { IfOk result (MakesWhole types.old types.new form first second) }
{
    match form {
        BinaryForm::Pair => add_row(types, TypeRow::Product(first, second)),
        BinaryForm::Store => add_row(types, TypeRow::Unit),
        BinaryForm::Binary(op) => add_row(types, outcome_row(op)),
        _ => Ok(second),
    }
}

/// What a form makes of two values.
pub(crate) fn finish_two(
    walk: &mut Walk,
    around: Around,
    form: BinaryForm,
    first: Value,
    second: Value,
    goal: Goal,
) -> Result<Value, AllocError>
    ensures { IfOk result (WritesTwo walk.old walk.new form around first second goal) }
{
    match form {
        BinaryForm::Call => call(walk, around, first, second, goal),
        _ => {
            let ty = whole_of(&mut walk.types, form, first.ty, second.ty)?;
            let straight = Straight::Two(form, first.slot, second.slot);
            give(walk, straight, second.filled, goal, ty)
        }
    }
}
