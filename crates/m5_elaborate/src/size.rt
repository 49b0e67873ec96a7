//! The limit on the size of a type.

ghost use Rattle.std.specs.Prelude.{◌≡◌, ◌+◌, ◌<◌, IfErr, IfOk, MatchOption};
ghost use Rattle.m5_terms.specs.TypeExpression.{type_node_count};
ghost use Rattle.m5_elaborate.specs.Outcome.{Ends};
ghost use Rattle.m5_elaborate.specs.Checked.{limited_type};

use crate::end::{Kind, TypeEnd};
use m5_lex::Place;
use m5_terms::types::{Shape, Ty};

/// The most nodes that a type may have.
const LIMIT: u32 = 1_024;

/// What a type leaves of the room for nodes, if it has no more than that. It looks at no node past the room.
#[tactic(auto, using(crate::proofs::Sizes::type_some))]
fn room_after(ty: &Ty, room: u32) -> Option<u32>
    ensures { MatchOption result (room < type_node_count ty.now) (λ rest. rest + type_node_count ty.now ≡ room) }
{
    if room == 0 {
        return None;
    }
    let inner = room - 1;
    match &ty.shape {
        Shape::Unit | Shape::Bool | Shape::Int | Shape::Str | Shape::Addr(_) => Some(inner),
        Shape::Prod(a, b) | Shape::Sum(a, b) | Shape::Fun(a, b) => match room_after(
            a.get(),
            inner,
        ) {
            None => None,
            Some(rest) => room_after(b.get(), rest),
        },
        Shape::List(a) | Shape::Cell(a) | Shape::At(a, _) | Shape::Sham(a) => room_after(
            a.get(),
            inner,
        ),
    }
}

/// The type itself, if it is not too large for the node at this place.
pub(crate) fn limited(place: Place, ty: Ty) -> Result<Ty, TypeEnd>
    ensures { Ends result (limited_type place ty) }
{
    match room_after(&ty, LIMIT) {
        None => Err(TypeEnd::Refused(Kind::TooLarge, place)),
        Some(_) => Ok(ty),
    }
}
