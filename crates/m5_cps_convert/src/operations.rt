//! Forms that are made of one value.

ghost use Rattle.std.specs.Prelude.{IfOk};
ghost use Rattle.m5_terms.specs.Opened.{viewed_unary};
ghost use Rattle.m5_terms.specs.TypeExpression.{int, sum, unit};
ghost use Rattle.m5_cps_convert.specs.code.Operations.{AddsType, IsOperation, MakesRow, IsMade, WritesOperation};

use crate::part_types::{content_of, first_of, second_of};
use crate::types::{add_row, add_type};
use crate::walk::{Around, Goal, Value, Walk};
use crate::writing::give;
use m5_cps::step::{Operation, Straight};
use m5_cps::types::{TypeRow, Types};
use m5_terms::opened::UnaryView;
use m5_terms::types::World;
use std::alloc::AllocError;

/// An operation, and the type of what it gives.
#[derive(Clone, Copy)]
pub struct Made {
    pub operation: Operation,
    pub ty: usize,
}

fn make_row(types: &mut Types, operation: Operation, row: TypeRow) -> Result<Made, AllocError>
    ensures { IfOk result (MakesRow types.old types.new operation row) }
{
    let ty = add_row(types, row)?;
    Ok(Made { operation, ty })
}

/// The operation of a form at a world, over a value of a type.
fn operation_of(
    types: &mut Types,
    form: UnaryView<'_>,
    world: World,
    part: usize,
) -> Result<Made, AllocError>
    requires { IsOperation (viewed_unary form) }
    ensures { IfOk result (IsMade types.old types.new (viewed_unary form.entry) world part) }
{
    match form {
        UnaryView::Fst => Ok(Made {
            operation: Operation::Fst,
            ty: first_of(types, part),
        }),
        UnaryView::Snd => Ok(Made {
            operation: Operation::Snd,
            ty: second_of(types, part),
        }),
        UnaryView::StrOf => make_row(types, Operation::StrOf, TypeRow::Str),
        UnaryView::NewCell => make_row(types, Operation::NewCell, TypeRow::Cell(part)),
        UnaryView::Load => Ok(Made {
            operation: Operation::Load,
            ty: content_of(types, part),
        }),
        UnaryView::Hold => make_row(types, Operation::Hold, TypeRow::At(part, world)),
        UnaryView::Sham => make_row(types, Operation::Sham, TypeRow::Sham(part)),
        UnaryView::Inl(sum) => {
            let ty = add_type(types, sum)?;
            Ok(Made {
                operation: Operation::Inl(ty),
                ty,
            })
        }
        UnaryView::Inr(sum) => {
            let ty = add_type(types, sum)?;
            Ok(Made {
                operation: Operation::Inr(ty),
                ty,
            })
        }
        UnaryView::Fn(_, _)
        | UnaryView::Rec(_, _, _, _)
        | UnaryView::Div
        | UnaryView::Spawn
        | UnaryView::Held(_) => unreachable!(),
    }
}

/// The type of what a division gives.
pub(crate) fn add_quotient(walk: &mut Walk) -> Result<usize, AllocError>
    ensures { IfOk result (AddsType walk.old walk.new (sum unit int)) }
{
    let none = walk.types.unit();
    let some = add_row(&mut walk.types, TypeRow::Int)?;
    add_row(&mut walk.types, TypeRow::Sum(none, some))
}

/// What a form makes of its part's value.
pub(crate) fn finish_operation(
    walk: &mut Walk,
    around: Around,
    form: UnaryView<'_>,
    part: Value,
    goal: Goal,
) -> Result<Value, AllocError>
    requires { IsOperation (viewed_unary form) }
    ensures { IfOk result (WritesOperation walk.old walk.new (viewed_unary form.entry) around part goal) }
{
    let made = operation_of(&mut walk.types, form, around.mode.world(), part.ty)?;
    give(
        walk,
        Straight::One(made.operation, part.slot),
        part.filled,
        goal,
        made.ty,
    )
}
