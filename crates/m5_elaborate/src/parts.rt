//! The checks on the types of parts.

ghost use Rattle.std.specs.Prelude.{◌≡◌, IfErr, IfOk};
ghost use Rattle.m5_elaborate.specs.Outcome.{Ends};
ghost use Rattle.m5_elaborate.specs.Parts.{if_same, first_of, second_of, content_of, applied, added, stored, injected_left, injected_right};

use crate::end::{Kind, TypeEnd};
use crate::names::Bound;
use m5_lex::Place;
use m5_terms::table::Binding;
use m5_terms::types::{Shape, Ty, World, is_same};
use std::alloc::Global;

/// Where a part stands, and what is bound in it.
#[derive(Drop)]
pub struct Inside {
    pub world: World,
    pub binding: Binding<Bound>,
}

/// The type, where a check on types holds.
pub(crate) fn if_same_type(same: bool, place: Place, ty: Ty) -> Result<Ty, TypeEnd>
    ensures { Ends result (if_same same place ty) }
{
    if same {
        Ok(ty)
    } else {
        Err(TypeEnd::Refused(Kind::Mismatch, place))
    }
}

pub(crate) fn first_of_pair(place: Place, ty: Ty) -> Result<Ty, TypeEnd>
    ensures { Ends result (first_of place ty) }
{
    match ty.into_shape() {
        Shape::Prod(a, _) => Ok(a.into_inner()?),
        _ => Err(TypeEnd::Refused(Kind::NotPair, place)),
    }
}

pub(crate) fn second_of_pair(place: Place, ty: Ty) -> Result<Ty, TypeEnd>
    ensures { Ends result (second_of place ty) }
{
    match ty.into_shape() {
        Shape::Prod(_, b) => Ok(b.into_inner()?),
        _ => Err(TypeEnd::Refused(Kind::NotPair, place)),
    }
}

pub(crate) fn content_of_cell(place: Place, ty: Ty) -> Result<Ty, TypeEnd>
    ensures { Ends result (content_of place ty) }
{
    match ty.into_shape() {
        Shape::Cell(a) => Ok(a.into_inner()?),
        _ => Err(TypeEnd::Refused(Kind::NotCell, place)),
    }
}

/// What a call gives.
pub(crate) fn call_type(place: Place, function: Ty, argument: &Ty) -> Result<Ty, TypeEnd>
    ensures { Ends result (applied place function argument.now) }
{
    match function.into_shape() {
        Shape::Fun(a, b) => if_same_type(is_same(a.get(), argument), place, b.into_inner()?),
        _ => Err(TypeEnd::Refused(Kind::NotFunction, place)),
    }
}

/// The type of a list with an element before it.
pub(crate) fn cons_type(place: Place, first: &Ty, list: Ty) -> Result<Ty, TypeEnd>
    ensures { Ends result (added place first.now list) }
{
    match &list.shape {
        Shape::List(a) => {
            let same = is_same(first, a.get());
            if_same_type(same, place, list)
        }
        _ => Err(TypeEnd::Refused(Kind::NotList, place)),
    }
}

/// Unit, where a value may be put into a cell.
pub(crate) fn store_type(place: Place, cell: &Ty, value: &Ty) -> Result<Ty, TypeEnd>
    ensures { Ends result (stored place cell.now value.now) }
{
    match &cell.shape {
        Shape::Cell(a) => if_same_type(is_same(a.get(), value), place, Ty::new(Shape::Unit)),
        _ => Err(TypeEnd::Refused(Kind::NotCell, place)),
    }
}

/// The written sum, where a value is in its first part.
pub(crate) fn left_type(alloc: Global, place: Place, written: &Ty, part: &Ty) -> Result<Ty, TypeEnd>
    ensures { Ends result (injected_left place written.now part.now) }
{
    match &written.shape {
        Shape::Sum(a, _) => if_same_type(is_same(part, a.get()), place, written.copy()?),
        _ => Err(TypeEnd::Refused(Kind::NotSum, place)),
    }
}

/// The written sum, where a value is in its second part.
pub(crate) fn right_type(
    alloc: Global,
    place: Place,
    written: &Ty,
    part: &Ty,
) -> Result<Ty, TypeEnd>
    ensures { Ends result (injected_right place written.now part.now) }
{
    match &written.shape {
        Shape::Sum(_, b) => if_same_type(is_same(part, b.get()), place, written.copy()?),
        _ => Err(TypeEnd::Refused(Kind::NotSum, place)),
    }
}
