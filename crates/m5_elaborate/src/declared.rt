//! Uses of declared functions.

ghost use Rattle.std.specs.Prelude.{◌≡◌, IfErr, IfOk};
ghost use Rattle.m5_elaborate.specs.Outcome.{Ends};
ghost use Rattle.m5_elaborate.specs.Checked.{signatures};
ghost use Rattle.m5_elaborate.specs.Leaves.{declared_type};

use crate::end::{Kind, TypeEnd};
use crate::synthesis::function_of;
use m5_lex::Place;
use m5_raw::function::Function;
use m5_terms::types::{Ty, World, is_same_world};
use std::alloc::Global;

/// The type of a declared function of this number, which is used at a world.
pub(crate) fn declared(
    alloc: Global,
    known: &[Function],
    world: World,
    place: Place,
    number: u32,
) -> Result<Ty, TypeEnd>
    ensures { Ends result (declared_type place world (signatures known.now number)) }
{
    match known.get(number as usize) {
        None => Err(TypeEnd::Refused(Kind::WrongWorld, place)),
        Some(function) => {
            let everywhere = is_same_world(function.world, World::Any);
            if !everywhere && !is_same_world(function.world, world) {
                return Err(TypeEnd::Refused(Kind::WrongWorld, place));
            }
            let ty = function.ty.copy()?;
            Ok(function_of(alloc, ty, function.result.copy()?)?)
        }
    }
}
