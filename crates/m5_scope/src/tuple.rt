//! Pairs of resolved parts, built from the last part on.

ghost use Rattle.std.specs.Prelude.{◌≡◌, ◌∷◌, ◌++◌, [], IfOk, OnOk};
ghost use Rattle.m5_scope.specs.Tuple.{paired};

use m5_lex::Place;
use m5_raw::node::{Node, NodeBox};
use m5_terms::form::BinaryForm;
use std::alloc::{AllocError, Global};

/// A resolved part of a tuple that is not its last one, with the place of the pair that it begins.
#[derive(Drop)]
pub(crate) struct Head {
    pub(crate) place: Place,
    pub(crate) node: NodeBox,
}

/// Adds a part before the last one.
pub(crate) fn add_head(heads: &mut Vec<Head>, place: Place, node: NodeBox) -> Result<(), AllocError>
    ensures { OnOk result (heads.new.items ≡ heads.old.items ++ record { place = place; node = node } ∷ []) }
{
    heads.push(Head { place, node })?;
    Ok(())
}

/// The pairs of these parts and the last one. A loop, since a tuple may have thousands of parts.
#[tactic(auto, using(crate::proofs::Spine::paired_more))]
pub(crate) fn pairs_of(
    alloc: Global,
    heads: Vec<Head>,
    last: NodeBox,
) -> Result<NodeBox, AllocError>
    ensures { IfOk result (λ x. x ≡ paired heads.items last) }
{
    let mut heads = heads;
    let mut node = last;
    while let Some(head) = heads.pop() {
        let Head { place, node: first } = head;
        node = NodeBox::new(alloc, Node::binary(place, BinaryForm::Pair, first, node))?;
    }
    Ok(node)
}
