//! The types of nested pairs, by a loop: a flat tuple nests as deep as it is long.

ghost use Rattle.std.specs.Prelude.{◌≡◌, ◌++◌, ◌∷◌, [], IfErr, IfOk, OnOk};
ghost use Rattle.m5_raw.specs.Resolved.{place_of};
ghost use Rattle.m5_terms.specs.Outcome.{found};
ghost use Rattle.m5_elaborate.specs.Outcome.{Ends};
ghost use Rattle.m5_elaborate.specs.Pairs.{nested};

use crate::end::TypeEnd;
use crate::size::limited;
use crate::synthesis::pair_of;
use m5_lex::Place;
use m5_raw::node::Node;
use m5_terms::types::Ty;
use std::alloc::{AllocError, Global};

/// A pair whose first part has this type, and whose second part is still to come.
#[derive(Drop)]
pub struct Waiting {
    pub place: Place,
    pub ty: Ty,
}

/// The place of a node's first token.
pub(crate) fn place_of_node(node: &Node) -> Place
    ensures { result ≡ place_of node.now }
{
    node.place
}

/// Adds a pair inside the others.
pub(crate) fn wait(waiting: &mut Vec<Waiting>, place: Place, ty: Ty) -> Result<(), AllocError>
    ensures { OnOk result (waiting.new.items ≡ waiting.old.items ++ record { place = place; ty = ty } ∷ []) }
{
    waiting.push(Waiting { place, ty })?;
    Ok(())
}

/// The type of nested pairs, the outermost first, round a last part of a type.
#[tactic(auto, using(crate::proofs::PairSteps::nested_more, crate::proofs::PairSteps::nested_fault))]
pub(crate) fn pair_up(alloc: Global, mut waiting: Vec<Waiting>, last: Ty) -> Result<Ty, TypeEnd>
    ensures { Ends result (nested waiting.items (found last)) }
{
    let mut whole = last;
    while let Some(pair) = waiting.pop() {
        let ty = pair_of(alloc, pair.ty, whole)?;
        whole = limited(pair.place, ty)?;
    }
    Ok(whole)
}
