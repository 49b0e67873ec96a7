//! The type of a node from those of its parts.

ghost use Rattle.std.specs.Prelude.{◌≡◌, ◌&&◌, IfErr, IfOk};
ghost use Rattle.m5_terms.specs.Table.{entries};
ghost use Rattle.m5_terms.specs.Opened.{viewed_leaf, viewed_unary};
ghost use Rattle.m5_terms.specs.TypeExpression.{int, unit, product, sum, function, list, cell, sham, at, same_type};
ghost use Rattle.m5_typing.specs.Operators.{operand, outcome};
ghost use Rattle.m5_typing.specs.Value.{is_value_form};
ghost use Rattle.m5_elaborate.specs.Erased.{erased};
ghost use Rattle.m5_elaborate.specs.Outcome.{Ends};
ghost use Rattle.m5_elaborate.specs.Parts.{if_same, hold_type, sham_type, moved_type};
ghost use Rattle.m5_elaborate.specs.Names.{context};
ghost use Rattle.m5_elaborate.specs.Checked.{signatures};
ghost use Rattle.m5_elaborate.specs.Leaves.{is_any, address_type, extern_type, leaf_type};
ghost use Rattle.m5_elaborate.specs.Synthesis.{unary_type, binary_type};

use crate::declared::declared;
use crate::end::{Kind, TypeEnd};
use crate::names::{Names, local, valid};
use crate::parts::{
    call_type, cons_type, content_of_cell, first_of_pair, if_same_type, left_type, right_type,
    second_of_pair, store_type,
};
use crate::value_form::is_form;
use m5_lex::Place;
use m5_raw::function::Function;
use m5_raw::node::Node;
use m5_terms::form::BinaryForm;
use m5_terms::opened::{LeafView, UnaryView};
use m5_terms::types::{Op, Prim, Shape, Ty, TypeBox, World, is_mobile, is_same, is_same_world};
use std::alloc::{AllocError, Global};

/// Whether no world is known.
pub(crate) fn is_at_any(world: World) -> bool
    ensures { result ≡ is_any world }
{
    is_same_world(world, World::Any)
}

pub(crate) fn pair_of(alloc: Global, first: Ty, second: Ty) -> Result<Ty, AllocError>
    ensures { IfOk result (λ t. t ≡ product first second) }
{
    Ok(Ty::new(Shape::Prod(TypeBox::new(alloc, first)?, TypeBox::new(alloc, second)?)))
}

pub(crate) fn function_of(alloc: Global, first: Ty, second: Ty) -> Result<Ty, AllocError>
    ensures { IfOk result (λ t. t ≡ function first second) }
{
    Ok(Ty::new(Shape::Fun(TypeBox::new(alloc, first)?, TypeBox::new(alloc, second)?)))
}

pub(crate) fn list_of(alloc: Global, element: Ty) -> Result<Ty, AllocError>
    ensures { IfOk result (λ t. t ≡ list element) }
{
    Ok(Ty::new(Shape::List(TypeBox::new(alloc, element)?)))
}

fn cell_of(alloc: Global, content: Ty) -> Result<Ty, AllocError>
    ensures { IfOk result (λ t. t ≡ cell content) }
{
    Ok(Ty::new(Shape::Cell(TypeBox::new(alloc, content)?)))
}

fn held_at(alloc: Global, ty: Ty, world: World) -> Result<Ty, AllocError>
    ensures { IfOk result (λ t. t ≡ at ty world) }
{
    Ok(Ty::new(Shape::At(TypeBox::new(alloc, ty)?, world)))
}

fn sham_of(alloc: Global, ty: Ty) -> Result<Ty, AllocError>
    ensures { IfOk result (λ t. t ≡ sham ty) }
{
    Ok(Ty::new(Shape::Sham(TypeBox::new(alloc, ty)?)))
}

fn of_extern(alloc: Global, place: Place, world: World, prim: Prim) -> Result<Ty, TypeEnd>
    ensures { Ends result (extern_type place world prim) }
{
    if is_at_any(world) {
        return Err(TypeEnd::Refused(Kind::NotGeneric, place));
    }
    if is_same_world(world, prim.world()) {
        Ok(prim.ty(alloc)?)
    } else {
        Err(TypeEnd::Refused(Kind::WrongWorld, place))
    }
}

fn of_address(place: Place, world: World) -> Result<Ty, TypeEnd>
    ensures { Ends result (address_type place world) }
{
    if is_at_any(world) {
        Err(TypeEnd::Refused(Kind::NotGeneric, place))
    } else {
        Ok(Ty::new(Shape::Addr(world)))
    }
}

/// The type of a form without parts.
pub(crate) fn of_leaf(
    alloc: Global,
    known: &[Function],
    names: &Names,
    depth: u32,
    world: World,
    place: Place,
    form: LeafView<'_>,
) -> Result<Ty, TypeEnd>
    ensures { Ends result (leaf_type (signatures known.now) (context depth (entries names.now)) world place (viewed_leaf form.entry)) }
{
    match form {
        LeafView::Var(number) => local(alloc, names, depth, world, place, number),
        LeafView::Valid(number) => valid(alloc, names, place, number),
        LeafView::Glob(number) => declared(alloc, known, world, place, number),
        LeafView::Extern(prim) => of_extern(alloc, place, world, prim),
        LeafView::Unit => Ok(Ty::new(Shape::Unit)),
        LeafView::Bool(_) => Ok(Ty::new(Shape::Bool)),
        LeafView::Int(_) => Ok(Ty::new(Shape::Int)),
        LeafView::Str(_) => Ok(Ty::new(Shape::Str)),
        LeafView::Addr(address) => of_address(place, address),
        LeafView::Here => of_address(place, world),
        LeafView::Nil(ty) => Ok(list_of(alloc, ty.copy()?)?),
        LeafView::CellAt(_, _) => Err(TypeEnd::Refused(Kind::WrongWorld, place)),
    }
}

/// The type that both parts of `div` have, in a pair.
fn pair_of_int(alloc: Global) -> Result<Ty, AllocError>
    ensures { IfOk result (λ t. t ≡ product int int) }
{
    pair_of(alloc, Ty::new(Shape::Int), Ty::new(Shape::Int))
}

/// The type of `div`.
fn quotient(alloc: Global) -> Result<Ty, AllocError>
    ensures { IfOk result (λ t. t ≡ sum unit int) }
{
    let none = TypeBox::new(alloc, Ty::new(Shape::Unit))?;
    Ok(Ty::new(Shape::Sum(none, TypeBox::new(alloc, Ty::new(Shape::Int))?)))
}

fn of_rec(alloc: Global, place: Place, ty: &Ty, codomain: &Ty, part: Ty) -> Result<Ty, TypeEnd>
    ensures { Ends result (if_same (same_type part codomain.now) place (function ty.now codomain.now)) }
{
    let same = is_same(&part, codomain);
    let whole = function_of(alloc, ty.copy()?, part)?;
    if_same_type(same, place, whole)
}

fn of_div(alloc: Global, place: Place, part: &Ty) -> Result<Ty, TypeEnd>
    ensures { Ends result (if_same (same_type part.now (product int int)) place (sum unit int)) }
{
    let wanted = pair_of_int(alloc)?;
    if_same_type(is_same(part, &wanted), place, quotient(alloc)?)
}

fn of_hold(alloc: Global, place: Place, world: World, part: Ty) -> Result<Ty, TypeEnd>
    ensures { Ends result (hold_type place world part) }
{
    if is_at_any(world) {
        Err(TypeEnd::Refused(Kind::NotGeneric, place))
    } else {
        Ok(held_at(alloc, part, world)?)
    }
}

fn of_sham(alloc: Global, place: Place, value_form: bool, part: Ty) -> Result<Ty, TypeEnd>
    ensures { Ends result (sham_type place value_form part) }
{
    if value_form {
        Ok(sham_of(alloc, part)?)
    } else {
        Err(TypeEnd::Refused(Kind::NotGeneric, place))
    }
}

/// The type of a form of one part.
pub(crate) fn of_unary(
    alloc: Global,
    form: UnaryView<'_>,
    place: Place,
    world: World,
    first: &Node,
    part: Ty,
) -> Result<Ty, TypeEnd>
    ensures { Ends result (unary_type (viewed_unary form.entry) place world (is_value_form (erased first.now)) part) }
{
    match form {
        UnaryView::Fn(_, ty) => Ok(function_of(alloc, ty.copy()?, part)?),
        UnaryView::Rec(_, _, ty, codomain) => of_rec(alloc, place, ty, codomain, part),
        UnaryView::Fst => first_of_pair(place, part),
        UnaryView::Snd => second_of_pair(place, part),
        UnaryView::StrOf => if_same_type(
            is_same(&part, &Ty::new(Shape::Int)),
            place,
            Ty::new(Shape::Str),
        ),
        UnaryView::Div => of_div(alloc, place, &part),
        UnaryView::NewCell => Ok(cell_of(alloc, part)?),
        UnaryView::Load => content_of_cell(place, part),
        UnaryView::Hold => of_hold(alloc, place, world, part),
        UnaryView::Sham => of_sham(alloc, place, is_form(first), part),
        UnaryView::Spawn => if_same_type(
            is_same(&part, &Ty::new(Shape::Unit)),
            place,
            Ty::new(Shape::Unit),
        ),
        UnaryView::Inl(written) => left_type(alloc, place, written, &part),
        UnaryView::Inr(written) => right_type(alloc, place, written, &part),
        UnaryView::Held(_) => Err(TypeEnd::Refused(Kind::WrongWorld, place)),
    }
}

/// The type of both parts of an operator.
fn operand_type(op: Op) -> Ty
    ensures { result ≡ operand op }
{
    match op {
        Op::Add | Op::Sub | Op::Mul | Op::EqInt | Op::Less => Ty::new(Shape::Int),
        Op::Cat | Op::EqStr => Ty::new(Shape::Str),
    }
}

/// The type of an operator's outcome.
fn outcome_type(op: Op) -> Ty
    ensures { result ≡ outcome op }
{
    match op {
        Op::Add | Op::Sub | Op::Mul => Ty::new(Shape::Int),
        Op::Cat => Ty::new(Shape::Str),
        Op::EqInt | Op::Less | Op::EqStr => Ty::new(Shape::Bool),
    }
}

fn of_operator(op: Op, place: Place, first: &Ty, second: &Ty) -> Result<Ty, TypeEnd>
    ensures { Ends result (if_same (same_type first.now (operand op) && same_type second.now (operand op)) place (outcome op)) }
{
    let wanted = operand_type(op);
    let same = is_same(first, &wanted) && is_same(second, &wanted);
    if_same_type(same, place, outcome_type(op))
}

fn of_get(place: Place, second: Ty) -> Result<Ty, TypeEnd>
    ensures { Ends result (moved_type place second) }
{
    if is_mobile(&second) {
        Ok(second)
    } else {
        Err(TypeEnd::Refused(Kind::NotMobile, place))
    }
}

/// The type of a form of two parts.
pub(crate) fn of_binary(
    alloc: Global,
    form: BinaryForm,
    place: Place,
    first: Ty,
    second: Ty,
) -> Result<Ty, TypeEnd>
    ensures { Ends result (binary_type form place first second) }
{
    match form {
        BinaryForm::Call => call_type(place, first, &second),
        BinaryForm::Pair => Ok(pair_of(alloc, first, second)?),
        BinaryForm::Cons => cons_type(place, &first, second),
        BinaryForm::Store => store_type(place, &first, &second),
        BinaryForm::Binary(op) => of_operator(op, place, &first, &second),
        BinaryForm::Get => of_get(place, second),
        BinaryForm::Do
        | BinaryForm::Val(_)
        | BinaryForm::Put(_)
        | BinaryForm::Leta(_)
        | BinaryForm::Lets(_) => Ok(second),
    }
}
