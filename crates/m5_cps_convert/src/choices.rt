//! Tests, whose second ways are written when their places are known, and what is bound in the arms of choices.

ghost use Rattle.std.specs.Prelude.{◌≡◌, ◌<◌, length, IfOk};
ghost use Rattle.m5_cps_convert.specs.code.Parts.{or_own};
ghost use Rattle.m5_cps_convert.specs.code.Choices.{BeginsTest, EndsTest, IsArm, choice_test, second_arm_scope, third_arm_scope, second_arm_filled, third_arm_filled};

use crate::lets::{Inside, bound};
use crate::part_types::{content_of, first_of, second_of};
use crate::walk::{Around, Kind, Walk, next_number};
use m5_cps::step::{Step, Test};
use m5_cps::types::Types;
use m5_terms::form::TernaryForm;
use m5_terms::table::Binding;
use std::alloc::AllocError;

/// A test whose second way is to come: its place.
pub(crate) fn begin_test(walk: &mut Walk, test: Test, slot: u32) -> Result<usize, AllocError>
    ensures { IfOk result (BeginsTest walk.old walk.new) }
{
    let place = walk.steps.count();
    walk.steps.push(Step::Test {
        test,
        slot,
        second: 0,
    })?;
    Ok(place)
}

/// The second way of the test at a place begins here.
pub(crate) fn end_test(walk: &mut Walk, place: usize, test: Test, slot: u32)
    requires { place < length walk.old.steps }
    ensures { EndsTest walk.old walk.new place test slot }
{
    let second = walk.steps.count();
    walk.steps.set(place, Step::Test { test, slot, second });
}

/// What a choice asks of the value of its first part.
pub(crate) fn test_of(form: TernaryForm) -> Test
    ensures { result ≡ choice_test form }
{
    match form {
        TernaryForm::If => Test::True,
        TernaryForm::CaseSum(_, _) => Test::Left,
        TernaryForm::CaseList(_, _) => Test::Nil,
    }
}

/// What the second part of a choice knows, of a value of a type.
pub(crate) fn in_second(
    types: &Types,
    around: Around,
    form: TernaryForm,
    ty: usize,
    filled: u32,
) -> Result<Inside, AllocError>
    ensures { IfOk result (IsArm second_arm_scope second_arm_filled types.now around form ty filled) }
{
    match form {
        TernaryForm::CaseSum(number, _) => {
            let known = bound(around, Kind::Local, filled, first_of(types, ty));
            Ok(Inside {
                filled: next_number(filled)?,
                binding: Binding::One(number as usize, known),
            })
        }
        _ => Ok(Inside {
            filled,
            binding: Binding::Nothing,
        }),
    }
}

/// What the third part knows.
pub(crate) fn in_third(
    types: &Types,
    around: Around,
    form: TernaryForm,
    ty: usize,
    filled: u32,
) -> Result<Inside, AllocError>
    ensures { IfOk result (IsArm third_arm_scope third_arm_filled types.now around form ty filled) }
{
    match form {
        TernaryForm::If => Ok(Inside {
            filled,
            binding: Binding::Nothing,
        }),
        TernaryForm::CaseSum(_, number) => {
            let known = bound(around, Kind::Local, filled, second_of(types, ty));
            Ok(Inside {
                filled: next_number(filled)?,
                binding: Binding::One(number as usize, known),
            })
        }
        TernaryForm::CaseList(head, tail) => {
            let behind = next_number(filled)?;
            let first = bound(around, Kind::Local, filled, content_of(types, ty));
            let rest = bound(around, Kind::Local, behind, ty);
            Ok(Inside {
                filled: next_number(behind)?,
                binding: Binding::Two(tail as usize, rest, head as usize, first),
            })
        }
    }
}

/// The choice's type, where it is known, or that of an arm.
pub(crate) fn whole_or_own(whole: Option<usize>, own: usize) -> usize
    ensures { result ≡ or_own whole own }
{
    match whole {
        Some(ty) => ty,
        None => own,
    }
}
