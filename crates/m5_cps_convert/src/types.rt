//! The numbers of types that a program writes, and of types made of others.

ghost use Rattle.std.specs.Prelude.{IfOk};
ghost use Rattle.m5_cps_convert.specs.code.Types.{RowAdded, TypeAdded};

use m5_cps::types::{TypeRow, Types};
use m5_terms::types::{Shape, Ty};
use std::alloc::AllocError;

/// Adds a type, and gives its number.
pub(crate) fn add_row(types: &mut Types, row: TypeRow) -> Result<usize, AllocError>
    ensures { IfOk result (RowAdded types.old types.new row) }
{
    let number = types.count();
    types.push(row)?;
    Ok(number)
}

/// Adds a written type, part by part.
pub(crate) fn add_type(types: &mut Types, ty: &Ty) -> Result<usize, AllocError>
    ensures { IfOk result (TypeAdded types.old types.new ty.now) }
{
    match &ty.shape {
        Shape::Unit => add_row(types, TypeRow::Unit),
        Shape::Bool => add_row(types, TypeRow::Bool),
        Shape::Int => add_row(types, TypeRow::Int),
        Shape::Str => add_row(types, TypeRow::Str),
        Shape::Addr(world) => add_row(types, TypeRow::Address(*world)),
        Shape::Prod(a, b) => {
            let first = add_type(types, a.get())?;
            let second = add_type(types, b.get())?;
            add_row(types, TypeRow::Product(first, second))
        }
        Shape::Sum(a, b) => {
            let first = add_type(types, a.get())?;
            let second = add_type(types, b.get())?;
            add_row(types, TypeRow::Sum(first, second))
        }
        Shape::Fun(a, b) => {
            let first = add_type(types, a.get())?;
            let second = add_type(types, b.get())?;
            add_row(types, TypeRow::Function(first, second))
        }
        Shape::List(a) => {
            let content = add_type(types, a.get())?;
            add_row(types, TypeRow::List(content))
        }
        Shape::Cell(a) => {
            let content = add_type(types, a.get())?;
            add_row(types, TypeRow::Cell(content))
        }
        Shape::Sham(a) => {
            let content = add_type(types, a.get())?;
            add_row(types, TypeRow::Sham(content))
        }
        Shape::At(a, world) => {
            let content = add_type(types, a.get())?;
            add_row(types, TypeRow::At(content, *world))
        }
    }
}
