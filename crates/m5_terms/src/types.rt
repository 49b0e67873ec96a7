//! Worlds, types, primitives and operators.

ghost use Rattle.std.specs.Prelude.{◌≡◌, ◌↔◌, IsTrue, IfOk};
ghost use Rattle.m5_terms.specs.TypeExpression.{mobile, same_type, same_world};
ghost use Rattle.m5_terms.specs.ShapeMeaning.{shape_meaning};

use std::alloc::{AllocError, Global};
use std::marker::Model;
use std::rc::Rc;

/// A world of a typing: one that has sites, or `Any` for what means the same at each of them.
#[derive(Clone, Copy, Debug, PartialEq, Eq)]
pub enum World {
    Home,
    Server,
    Panel,
    Any,
}

/// A type, which contracts see as plain data.
#[cycle(ty)]
pub struct Ty {
    pub shape: Shape,
}

/// Written out, so that a caller lets a type go by one call.
impl Drop for Ty {
    #[cycle(ty)]
    fn drop(self) {
        let Ty { shape } = self;
        drop(shape);
    }
}

impl Model for Ty {
    ghost use Rattle.std.specs.Prelude.{◌*◌, ◌+◌};
    ghost use Rattle.m5_terms.specs.TypeExpression.{TypeExpression, type_code, type_node_count};

    ghost Value = { TypeExpression };

    ghost coded = { type_code };

    ghost use Rattle.m5_terms.specs.ShapeMeaning.{shape_meaning};

    ghost view = { λ t. shape_meaning t.shape };

    ghost size = { λ t. 2 * type_node_count t };

    ghost use Rattle.std.proofs.Common.{arith};

    ghost size_decreases = { λ a h. Prim.grind arith };
}

/// A type on the heap, which contracts see as that type. Types that have it in common share it, so that a large type is
/// handed on without a copy.
#[cycle(ty)]
#[derive(Drop)]
pub struct TypeBox {
    inner: Rc<Ty>,
}

impl Model for TypeBox {
    ghost use Rattle.std.specs.Prelude.{◌*◌, ◌+◌};
    ghost use Rattle.m5_terms.specs.TypeExpression.{TypeExpression, type_code, type_node_count};

    ghost Value = { TypeExpression };

    ghost coded = { type_code };

    ghost view = { λ b. b.inner.value };

    ghost size = { λ t. 2 * type_node_count t + 1 };

    ghost use Rattle.std.proofs.Common.{arith};

    ghost size_decreases = { λ a h. Prim.grind arith };
}

impl TypeBox {
    pub fn new(alloc: Global, ty: Ty) -> Result<TypeBox, AllocError>
        ensures { IfOk result (λ b. b ≡ ty) }
    {
        Ok(TypeBox {
            inner: Rc::new(alloc, ty)?,
        })
    }

    pub fn get(&self) -> &Ty
        ensures { result.now ≡ self.now }
    {
        &self.inner
    }

    /// One owner more of the same type.
    pub fn share(&self) -> Result<TypeBox, AllocError>
        ensures { IfOk result (λ b. b ≡ self.now) }
    {
        Ok(TypeBox {
            inner: self.inner.clone()?,
        })
    }

    /// The type itself. Its parts stay shared where others own it too.
    pub fn into_inner(self) -> Result<Ty, AllocError>
        ensures { IfOk result (λ ty. ty ≡ self) }
    {
        let TypeBox { inner } = self;
        match Rc::try_unwrap(inner) {
            Ok(ty) => Ok(ty),
            Err(shared) => shared.copy(),
        }
    }
}

/// The outermost constructor of a type. `At` is a value held at a world, `Sham` one that is valid
/// everywhere, `Addr` the address of a world.
#[cycle(ty)]
#[derive(Drop)]
pub enum Shape {
    Unit,
    Bool,
    Int,
    Str,
    Prod(TypeBox, TypeBox),
    Sum(TypeBox, TypeBox),
    List(TypeBox),
    Fun(TypeBox, TypeBox),
    Cell(TypeBox),
    At(TypeBox, World),
    Sham(TypeBox),
    Addr(World),
}

/// What an extern may name.
#[derive(Clone, Copy, Debug, PartialEq, Eq)]
pub enum Primitive {
    Say,
    SetText,
    GetText,
    On,
    Read,
    Write,
    Watch,
    Show,
}

/// antt has a module of this name, so the enum has a longer one.
pub type Prim = Primitive;

/// An operator on two integers, or for `Cat` and `EqStr` on two texts. `Add`, `Sub` and `Mul`
/// wrap at 64 bits.
#[derive(Clone, Copy, Debug, PartialEq, Eq)]
pub enum Op {
    Add,
    Sub,
    Mul,
    Cat,
    EqInt,
    Less,
    EqStr,
}

impl Ty {
    pub fn new(shape: Shape) -> Ty
        ensures { result ≡ shape_meaning shape }
    {
        Ty { shape }
    }

    /// The shape itself, without its type.
    pub fn into_shape(self) -> Shape
        ensures { shape_meaning result ≡ self }
    {
        let Ty { shape } = self;
        shape
    }

    /// The same type again. Its parts are shared, so the cost does not grow with the type.
    pub fn copy(&self) -> Result<Ty, AllocError>
        ensures { IfOk result (λ ty. ty ≡ self.now) }
    {
        match &self.shape {
            Shape::Unit => Ok(Ty::new(Shape::Unit)),
            Shape::Bool => Ok(Ty::new(Shape::Bool)),
            Shape::Int => Ok(Ty::new(Shape::Int)),
            Shape::Str => Ok(Ty::new(Shape::Str)),
            Shape::Prod(a, b) => Ok(Ty::new(Shape::Prod(a.share()?, b.share()?))),
            Shape::Sum(a, b) => Ok(Ty::new(Shape::Sum(a.share()?, b.share()?))),
            Shape::List(a) => Ok(Ty::new(Shape::List(a.share()?))),
            Shape::Fun(a, b) => Ok(Ty::new(Shape::Fun(a.share()?, b.share()?))),
            Shape::Cell(a) => Ok(Ty::new(Shape::Cell(a.share()?))),
            Shape::At(a, w) => Ok(Ty::new(Shape::At(a.share()?, *w))),
            Shape::Sham(a) => Ok(Ty::new(Shape::Sham(a.share()?))),
            Shape::Addr(w) => Ok(Ty::new(Shape::Addr(*w))),
        }
    }
}

/// Whether a value of the type means the same at every world: base types, addresses, held and
/// sham types, and products, sums and lists of mobile types.
pub fn is_mobile(ty: &Ty) -> bool
    ensures { result ≡ mobile ty.now }
{
    match &ty.shape {
        Shape::Unit | Shape::Bool | Shape::Int | Shape::Str => true,
        Shape::Prod(a, b) | Shape::Sum(a, b) => is_mobile(a.get()) && is_mobile(b.get()),
        Shape::List(a) => is_mobile(a.get()),
        Shape::Fun(_, _) | Shape::Cell(_) => false,
        Shape::At(_, _) | Shape::Sham(_) | Shape::Addr(_) => true,
    }
}

/// Whether two worlds are one.
pub fn is_same_world(a: World, b: World) -> bool
    ensures value { result ≡ same_world a b }
    ensures exact { IsTrue result ↔ (a ≡ b) }
{
    match (a, b) {
        (World::Home, World::Home)
        | (World::Server, World::Server)
        | (World::Panel, World::Panel)
        | (World::Any, World::Any) => true,
        _ => false,
    }
}

/// Whether two types are one, part by part.
pub fn is_same(a: &Ty, b: &Ty) -> bool
    ensures value { result ≡ same_type a.now b.now }
    ensures exact { IsTrue result ↔ (a.now ≡ b.now) }
{
    match (&a.shape, &b.shape) {
        (Shape::Unit, Shape::Unit)
        | (Shape::Bool, Shape::Bool)
        | (Shape::Int, Shape::Int)
        | (Shape::Str, Shape::Str) => true,
        (Shape::Addr(v), Shape::Addr(w)) => is_same_world(*v, *w),
        (Shape::Prod(a, b), Shape::Prod(c, d)) => is_same(a.get(), c.get())
            && is_same(b.get(), d.get()),
        (Shape::Sum(a, b), Shape::Sum(c, d)) => is_same(a.get(), c.get())
            && is_same(b.get(), d.get()),
        (Shape::Fun(a, b), Shape::Fun(c, d)) => is_same(a.get(), c.get())
            && is_same(b.get(), d.get()),
        (Shape::List(a), Shape::List(b)) => is_same(a.get(), b.get()),
        (Shape::Cell(a), Shape::Cell(b)) => is_same(a.get(), b.get()),
        (Shape::Sham(a), Shape::Sham(b)) => is_same(a.get(), b.get()),
        (Shape::At(a, v), Shape::At(b, w)) => is_same(a.get(), b.get()) && is_same_world(*v, *w),
        _ => false,
    }
}
