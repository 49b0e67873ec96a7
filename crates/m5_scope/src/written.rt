//! The types of written types.

ghost use Rattle.std.specs.Prelude.{◌≡◌, IfOk};
ghost use Rattle.m5_scope.specs.Written.{plain_type, wrapped_type, joined_type, type_of};

use m5_terms::types::{Shape, Ty, TypeBox};
use m5_tree::form::{TypeJoin, TypePlain, TypeWrap};
use m5_tree::type_expr::{TypeExpr, TypeShape};
use std::alloc::{AllocError, Global};

fn plain(form: TypePlain) -> Ty
    ensures { result ≡ plain_type form }
{
    match form {
        TypePlain::Unit => Ty::new(Shape::Unit),
        TypePlain::Bool => Ty::new(Shape::Bool),
        TypePlain::Int => Ty::new(Shape::Int),
        TypePlain::Str => Ty::new(Shape::Str),
        TypePlain::Addr(world) => Ty::new(Shape::Addr(world)),
    }
}

fn wrapped(form: TypeWrap, part: TypeBox) -> Ty
    ensures { result ≡ wrapped_type form part }
{
    match form {
        TypeWrap::List => Ty::new(Shape::List(part)),
        TypeWrap::Cell => Ty::new(Shape::Cell(part)),
        TypeWrap::Sham => Ty::new(Shape::Sham(part)),
        TypeWrap::At(world) => Ty::new(Shape::At(part, world)),
    }
}

fn joined(form: TypeJoin, first: TypeBox, second: TypeBox) -> Ty
    ensures { result ≡ joined_type form first second }
{
    match form {
        TypeJoin::Prod => Ty::new(Shape::Prod(first, second)),
        TypeJoin::Sum => Ty::new(Shape::Sum(first, second)),
        TypeJoin::Fun => Ty::new(Shape::Fun(first, second)),
    }
}

#[cycle(written)]
fn boxed(alloc: Global, part: &TypeExpr) -> Result<TypeBox, AllocError>
    ensures { IfOk result (λ t. t ≡ type_of part.now) }
{
    TypeBox::new(alloc, written(alloc, part)?)
}

/// The type that a written type stands for.
#[cycle(written)]
pub(crate) fn written(alloc: Global, ty: &TypeExpr) -> Result<Ty, AllocError>
    ensures { IfOk result (λ t. t ≡ type_of ty.now) }
{
    match &ty.shape {
        TypeShape::Plain(form) => Ok(plain(*form)),
        TypeShape::Wrap(form, part) => Ok(wrapped(*form, boxed(alloc, part.get())?)),
        TypeShape::Join(form, first, second) => {
            Ok(joined(
                *form,
                boxed(alloc, first.get())?,
                boxed(alloc, second.get())?,
            ))
        }
    }
}
