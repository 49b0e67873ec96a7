//! Types as they are written, each node with its place.

ghost use Rattle.std.specs.Prelude.{◌≡◌, IfOk};
ghost use Rattle.m5_tree.specs.TypeSyntax.{plain, wrapped, joined};

use crate::form::{TypeJoin, TypePlain, TypeWrap};
use m5_lex::Place;
use std::alloc::{AllocError, Global};
use std::marker::Model;

/// A written type, with the place of its phrase's first token.
#[cycle(type_expr)]
pub struct TypeExpr {
    pub place: Place,
    pub shape: TypeShape,
}

/// Written out, so that a caller lets a type go by one call.
impl Drop for TypeExpr {
    #[cycle(type_expr)]
    fn drop(self) {
        let TypeExpr { place: _, shape } = self;
        drop(shape);
    }
}

impl Model for TypeExpr {
    ghost use Rattle.std.specs.Prelude.{◌*◌, ◌+◌};
    ghost use Rattle.m5_tree.specs.TypeSyntax.{TypeSyntax, type_code, type_node_count};

    ghost Value = { TypeSyntax };

    ghost coded = { type_code };

    ghost use Rattle.m5_tree.specs.TypeMeaning.{type_meaning};

    ghost view = { λ t. type_meaning t.place t.shape };

    ghost size = { λ t. 2 * type_node_count t };

    ghost use Rattle.std.proofs.Common.{arith};

    ghost size_decreases = { λ a h. Prim.grind arith };
}

/// A written type on the heap.
#[cycle(type_expr)]
#[derive(Drop)]
pub struct TypeBox {
    inner: Box<TypeExpr>,
}

impl Model for TypeBox {
    ghost use Rattle.std.specs.Prelude.{◌*◌, ◌+◌};
    ghost use Rattle.m5_tree.specs.TypeSyntax.{TypeSyntax, type_code, type_node_count};

    ghost Value = { TypeSyntax };

    ghost coded = { type_code };

    ghost view = { λ b. b.inner.value };

    ghost size = { λ t. 2 * type_node_count t + 1 };

    ghost use Rattle.std.proofs.Common.{arith};

    ghost size_decreases = { λ a h. Prim.grind arith };
}

impl TypeBox {
    fn new(alloc: Global, ty: TypeExpr) -> Result<TypeBox, AllocError>
        ensures { IfOk result (λ b. b ≡ ty) }
    {
        Ok(TypeBox {
            inner: Box::new(alloc, ty)?,
        })
    }

    /// The type itself.
    pub fn get(&self) -> &TypeExpr
        ensures { result.now ≡ self.now }
    {
        &self.inner
    }
}

/// A written type by the number of its parts.
#[cycle(type_expr)]
#[derive(Drop)]
pub enum TypeShape {
    Plain(TypePlain),
    Wrap(TypeWrap, TypeBox),
    Join(TypeJoin, TypeBox, TypeBox),
}

impl TypeExpr {
    /// A type without parts.
    pub fn plain(place: Place, form: TypePlain) -> TypeExpr
        ensures { result ≡ plain place form }
    {
        TypeExpr {
            place,
            shape: TypeShape::Plain(form),
        }
    }

    /// A type of one part.
    pub fn wrap(
        alloc: Global,
        place: Place,
        form: TypeWrap,
        part: TypeExpr,
    ) -> Result<TypeExpr, AllocError>
        ensures { IfOk result (λ t. t ≡ wrapped place form part) }
    {
        Ok(TypeExpr {
            place,
            shape: TypeShape::Wrap(form, TypeBox::new(alloc, part)?),
        })
    }

    /// A type of two parts.
    pub fn join(
        alloc: Global,
        place: Place,
        form: TypeJoin,
        first: TypeExpr,
        second: TypeExpr,
    ) -> Result<TypeExpr, AllocError>
        ensures { IfOk result (λ t. t ≡ joined place form first second) }
    {
        let first = TypeBox::new(alloc, first)?;
        let second = TypeBox::new(alloc, second)?;
        Ok(TypeExpr {
            place,
            shape: TypeShape::Join(form, first, second),
        })
    }
}
