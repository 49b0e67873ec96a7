//! Where the later parts of a form stand, and what is bound in them.

ghost use Rattle.std.specs.Prelude.{◌≡◌, ◌&&◌, ◌+◌, ◌^◌, ◌<◌, IfErr, IfOk};
ghost use Rattle.m5_terms.specs.Opened.{viewed_unary};
ghost use Rattle.m5_terms.specs.TypeExpression.{bool, same_type};
ghost use Rattle.m5_elaborate.specs.Outcome.{Ends};
ghost use Rattle.m5_elaborate.specs.Names.{part_depth};
ghost use Rattle.m5_elaborate.specs.Parts.{if_same};
ghost use Rattle.m5_elaborate.specs.Synthesis.{addressed, arms, get_part, list_arms, opened_hold, opened_sham, put_part, second_part, sum_arms, ternary_type, unary_binding, unary_world};

use crate::end::{Kind, TypeEnd};
use crate::names::Bound;
use crate::parts::{Inside, if_same_type};
use crate::synthesis::{function_of, is_at_any};
use m5_lex::Place;
use m5_terms::form::{BinaryForm, TernaryForm};
use m5_terms::opened::UnaryView;
use m5_terms::table::Binding;
use m5_terms::types::{Shape, Ty, World, is_mobile, is_same};
use std::alloc::{AllocError, Global};

/// What is bound in the second and in the third part.
#[derive(Drop)]
pub struct Arms {
    pub second: Binding<Bound>,
    pub third: Binding<Bound>,
}

/// The world of a form's one part.
pub(crate) fn world_of_part(form: &UnaryView<'_>, world: World) -> World
    ensures { result ≡ unary_world (viewed_unary form.now) world }
{
    match form {
        UnaryView::Sham => World::Any,
        _ => world,
    }
}

/// How many `sham`s stand around a form's one part.
pub(crate) fn depth_of_part(form: &UnaryView<'_>, depth: u32) -> u32
    requires { depth + 1 < 2 ^ 32 }
    ensures { result ≡ part_depth (viewed_unary form.now) depth }
{
    match form {
        UnaryView::Sham => depth + 1,
        _ => depth,
    }
}

/// What a form binds in its one part.
pub(crate) fn binding_of_part(
    alloc: Global,
    form: &UnaryView<'_>,
    world: World,
) -> Result<Binding<Bound>, AllocError>
    ensures { IfOk result (λ b. b ≡ unary_binding (viewed_unary form.now) world) }
{
    match form {
        UnaryView::Fn(number, ty) => {
            let ty = ty.copy()?;
            Ok(Binding::One(*number as usize, Bound::Local(world, ty)))
        }
        UnaryView::Rec(number, parameter, ty, codomain) => {
            let domain = ty.copy()?;
            let whole = function_of(alloc, ty.copy()?, codomain.copy()?)?;
            Ok(Binding::Two(
                *parameter as usize,
                Bound::Local(world, domain),
                *number as usize,
                Bound::Local(world, whole),
            ))
        }
        _ => Ok(Binding::Nothing),
    }
}

fn in_put(
    alloc: Global,
    number: u32,
    place: Place,
    world: World,
    first: &Ty,
) -> Result<Inside, TypeEnd>
    ensures { Ends result (put_part number place world first.now) }
{
    if !is_mobile(first) {
        return Err(TypeEnd::Refused(Kind::NotMobile, place));
    }
    Ok(Inside {
        world,
        binding: Binding::One(number as usize, Bound::Valid(first.copy()?)),
    })
}

fn in_leta(
    alloc: Global,
    number: u32,
    place: Place,
    world: World,
    first: &Ty,
) -> Result<Inside, TypeEnd>
    ensures { Ends result (opened_hold number place world first.now) }
{
    match &first.shape {
        Shape::At(ty, at) => {
            if is_at_any(*at) {
                return Err(TypeEnd::Refused(Kind::NotAt, place));
            }
            Ok(Inside {
                world,
                binding: Binding::One(number as usize, Bound::Local(*at, ty.get().copy()?)),
            })
        }
        _ => Err(TypeEnd::Refused(Kind::NotAt, place)),
    }
}

fn in_lets(
    alloc: Global,
    number: u32,
    place: Place,
    world: World,
    first: &Ty,
) -> Result<Inside, TypeEnd>
    ensures { Ends result (opened_sham number place world first.now) }
{
    match &first.shape {
        Shape::Sham(ty) => Ok(Inside {
            world,
            binding: Binding::One(number as usize, Bound::Valid(ty.get().copy()?)),
        }),
        _ => Err(TypeEnd::Refused(Kind::NotSham, place)),
    }
}

fn in_get(place: Place, world: World, first: &Ty) -> Result<Inside, TypeEnd>
    ensures { Ends result (get_part place world first.now) }
{
    if is_at_any(world) {
        return Err(TypeEnd::Refused(Kind::NotGeneric, place));
    }
    match &first.shape {
        Shape::Addr(at) => {
            if is_at_any(*at) {
                return Err(TypeEnd::Refused(Kind::Mismatch, place));
            }
            Ok(Inside {
                world: *at,
                binding: Binding::Nothing,
            })
        }
        _ => Err(TypeEnd::Refused(Kind::Mismatch, place)),
    }
}

/// Where a second part stands, and what is bound in it.
pub(crate) fn in_second_part(
    alloc: Global,
    form: BinaryForm,
    place: Place,
    world: World,
    first: &Ty,
) -> Result<Inside, TypeEnd>
    ensures { Ends result (second_part form place world first.now) }
{
    match form {
        BinaryForm::Val(number) => Ok(Inside {
            world,
            binding: Binding::One(number as usize, Bound::Local(world, first.copy()?)),
        }),
        BinaryForm::Put(number) => in_put(alloc, number, place, world, first),
        BinaryForm::Leta(number) => in_leta(alloc, number, place, world, first),
        BinaryForm::Lets(number) => in_lets(alloc, number, place, world, first),
        BinaryForm::Get => in_get(place, world, first),
        BinaryForm::Call
        | BinaryForm::Pair
        | BinaryForm::Cons
        | BinaryForm::Store
        | BinaryForm::Do
        | BinaryForm::Binary(_) => Ok(Inside {
            world,
            binding: Binding::Nothing,
        }),
    }
}

fn in_sum(
    alloc: Global,
    left: u32,
    right: u32,
    place: Place,
    world: World,
    first: &Ty,
) -> Result<Arms, TypeEnd>
    ensures { Ends result (sum_arms left right place world first.now) }
{
    match &first.shape {
        Shape::Sum(a, b) => {
            let second = Binding::One(left as usize, Bound::Local(world, a.get().copy()?));
            Ok(Arms {
                second,
                third: Binding::One(right as usize, Bound::Local(world, b.get().copy()?)),
            })
        }
        _ => Err(TypeEnd::Refused(Kind::NotSum, place)),
    }
}

fn in_list(
    alloc: Global,
    head: u32,
    tail: u32,
    place: Place,
    world: World,
    first: &Ty,
) -> Result<Arms, TypeEnd>
    ensures { Ends result (list_arms head tail place world first.now) }
{
    match &first.shape {
        Shape::List(a) => {
            let element = Bound::Local(world, a.get().copy()?);
            let rest = Bound::Local(world, first.copy()?);
            Ok(Arms {
                second: Binding::Nothing,
                third: Binding::Two(tail as usize, rest, head as usize, element),
            })
        }
        _ => Err(TypeEnd::Refused(Kind::NotList, place)),
    }
}

/// What is bound in the arms of a form.
pub(crate) fn in_arms(
    alloc: Global,
    form: TernaryForm,
    place: Place,
    world: World,
    first: &Ty,
) -> Result<Arms, TypeEnd>
    ensures { Ends result (arms form place world first.now) }
{
    match form {
        TernaryForm::If => Ok(Arms {
            second: Binding::Nothing,
            third: Binding::Nothing,
        }),
        TernaryForm::CaseSum(left, right) => in_sum(alloc, left, right, place, world, first),
        TernaryForm::CaseList(head, tail) => in_list(alloc, head, tail, place, world, first),
    }
}

/// The type of a form of three parts.
pub(crate) fn of_ternary(
    form: TernaryForm,
    place: Place,
    first: &Ty,
    second: Ty,
    third: &Ty,
) -> Result<Ty, TypeEnd>
    ensures { Ends result (ternary_type form place first.now second third.now) }
{
    let equal = is_same(&second, third);
    match form {
        TernaryForm::If => {
            let truth = Ty::new(Shape::Bool);
            if_same_type(is_same(first, &truth) && equal, place, second)
        }
        TernaryForm::CaseSum(_, _) => if_same_type(equal, place, second),
        TernaryForm::CaseList(_, _) => if_same_type(equal, place, second),
    }
}
