//! What a declaration binds over the rest of its `let`.

ghost use Rattle.std.specs.Prelude.{◌≡◌, IfOk};
ghost use Rattle.m5_terms.specs.declared.table.Binding.TheVariants.{One};
ghost use Rattle.m5_cps_convert.specs.code.Lets.{BeginsLet};

use crate::part_types::content_of;
use crate::walk::{Around, Kind, Known, Value, Walk, next_number};
use m5_cps::step::{Step, Straight};
use m5_terms::form::BinaryForm;
use m5_terms::table::Binding;
use std::alloc::AllocError;

/// What is bound in a part, and how many slots are filled before it.
#[derive(Drop)]
pub struct Inside {
    pub filled: u32,
    pub binding: Binding<Known>,
}

/// One variable in a slot.
pub(crate) fn bound(around: Around, kind: Kind, slot: u32, ty: usize) -> Known
    ensures { result ≡ record { kind = kind; depth = around.depth; slot = slot; ty = ty } }
{
    Known {
        kind,
        depth: around.depth,
        slot,
        ty,
    }
}

fn bind_one(number: u32, filled: u32, known: Known) -> Inside
    ensures { result ≡ record { filled = filled; binding = One number known } }
{
    Inside {
        filled,
        binding: Binding::One(number as usize, known),
    }
}

/// What a declaration binds, when its first part's value is there.
pub(crate) fn begin_let(
    walk: &mut Walk,
    around: Around,
    form: BinaryForm,
    first: Value,
) -> Result<Inside, AllocError>
    ensures { IfOk result (BeginsLet walk.old walk.new around form first) }
{
    match form {
        BinaryForm::Val(number) => Ok(bind_one(
            number,
            first.filled,
            bound(around, Kind::Local, first.slot, first.ty),
        )),
        BinaryForm::Put(number) => Ok(bind_one(
            number,
            first.filled,
            bound(around, Kind::Valid, first.slot, first.ty),
        )),
        BinaryForm::Leta(number) => {
            walk.steps
                .push(Step::Straight(Straight::Unheld(first.slot)))?;
            let content = content_of(&walk.types, first.ty);
            Ok(bind_one(
                number,
                next_number(first.filled)?,
                bound(around, Kind::Local, first.filled, content),
            ))
        }
        BinaryForm::Lets(number) => {
            walk.steps
                .push(Step::Straight(Straight::Unsham(first.slot)))?;
            let content = content_of(&walk.types, first.ty);
            Ok(bind_one(
                number,
                next_number(first.filled)?,
                bound(around, Kind::Valid, first.filled, content),
            ))
        }
        _ => Ok(Inside {
            filled: first.filled,
            binding: Binding::Nothing,
        }),
    }
}
