//! What is seen of variables.

ghost use Rattle.std.specs.Prelude.{slice_get};
ghost use Rattle.m5_terms.specs.Table.{entries};
ghost use Rattle.m5_cps_convert.specs.code.Knowing.{IsDeclaredNumber, IsSeen};

use crate::walk::{Kind, Walk};

/// The slot of a variable, if it has one, and its type: unit where it is of no use.
#[derive(Clone, Copy)]
pub struct Seen {
    pub slot: Option<u32>,
    pub ty: usize,
}

/// What is seen of a variable under so many `sham`s.
pub(crate) fn see(walk: &Walk, depth: u32, number: u32) -> Seen
    ensures { IsSeen walk.now.types depth (entries walk.now.names number) result }
{
    let unit = walk.types.unit();
    match walk.names.get(number as usize) {
        None => Seen {
            slot: None,
            ty: unit,
        },
        Some(known) => {
            let ty = match known.kind {
                Kind::Local if known.depth != depth => unit,
                _ => known.ty,
            };
            Seen {
                slot: Some(known.slot),
                ty,
            }
        }
    }
}

/// The number of a declared function's type: unit's where there is none.
pub(crate) fn declared_number(walk: &Walk, function: usize) -> usize
    ensures { IsDeclaredNumber walk.now.types (slice_get walk.now.functions.items function) result }
{
    if function < walk.functions.len() {
        walk.functions[function]
    } else {
        walk.types.unit()
    }
}
