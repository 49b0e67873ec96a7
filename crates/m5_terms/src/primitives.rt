//! The primitives' names, types and worlds.

ghost use Rattle.std.specs.Prelude.{◌≡◌, ◌≢◌, IfOk, MatchOption};
ghost use Rattle.m5_terms.specs.TypeExpression.{function, product};
ghost use Rattle.m5_terms.specs.Primitives.{primitive_name, primitive_type, primitive_world};

use crate::types::{Prim, Primitive, Shape, Ty, TypeBox, World};
use std::alloc::{AllocError, Global};

/// The primitive that an extern of this name declares, if there is one.
pub fn extern_of(name: &[u8]) -> Option<Prim>
    ensures { MatchOption result ((p : Primitive) → name.now ≢ primitive_name p) (λ p. name.now ≡ primitive_name p) }
{
    match name {
        b"say" => Some(Prim::Say),
        b"set_text" => Some(Prim::SetText),
        b"get_text" => Some(Prim::GetText),
        b"on" => Some(Prim::On),
        b"read" => Some(Prim::Read),
        b"write" => Some(Prim::Write),
        b"watch" => Some(Prim::Watch),
        b"show" => Some(Prim::Show),
        _ => None,
    }
}

fn both(alloc: Global, first: Ty, second: Ty) -> Result<Ty, AllocError>
    ensures { IfOk result (λ t. t ≡ product first second) }
{
    Ok(Ty::new(Shape::Prod(TypeBox::new(alloc, first)?, TypeBox::new(alloc, second)?)))
}

fn from(alloc: Global, first: Ty, second: Ty) -> Result<Ty, AllocError>
    ensures { IfOk result (λ t. t ≡ function first second) }
{
    Ok(Ty::new(Shape::Fun(TypeBox::new(alloc, first)?, TypeBox::new(alloc, second)?)))
}

impl Primitive {
    /// The world at which the primitive may be used.
    pub fn world(self) -> World
        ensures { result ≡ primitive_world self }
    {
        match self {
            Prim::Say | Prim::SetText | Prim::GetText | Prim::On => World::Home,
            Prim::Read | Prim::Write | Prim::Watch => World::Server,
            Prim::Show => World::Panel,
        }
    }

    /// The type at which an extern may declare it.
    pub fn ty(self, alloc: Global) -> Result<Ty, AllocError>
        ensures { IfOk result (λ t. t ≡ primitive_type self) }
    {
        match self {
            Prim::Say | Prim::Show => from(alloc, Ty::new(Shape::Str), Ty::new(Shape::Unit)),
            Prim::GetText => from(alloc, Ty::new(Shape::Str), Ty::new(Shape::Str)),
            Prim::SetText | Prim::Write => {
                from(
                    alloc,
                    both(alloc, Ty::new(Shape::Str), Ty::new(Shape::Str))?,
                    Ty::new(Shape::Unit),
                )
            }
            Prim::On | Prim::Watch => {
                let handler = from(alloc, Ty::new(Shape::Str), Ty::new(Shape::Unit))?;
                from(
                    alloc,
                    both(alloc, Ty::new(Shape::Str), handler)?,
                    Ty::new(Shape::Unit),
                )
            }
            Prim::Read => {
                let found = Ty::new(Shape::Sum(
                    TypeBox::new(alloc, Ty::new(Shape::Unit))?,
                    TypeBox::new(alloc, Ty::new(Shape::Str))?,
                ));
                from(alloc, Ty::new(Shape::Str), found)
            }
        }
    }
}
