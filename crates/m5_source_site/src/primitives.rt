//! Calls of primitives.

ghost use Rattle.std.specs.Prelude.{◌≡◌, IfOk};
ghost use Rattle.m5_terms.specs.Expression.{leaf, binary};
ghost use Rattle.m5_terms.specs.declared.form.LeafForm.TheVariants as leaf_form;
ghost use Rattle.m5_terms.specs.declared.form.BinaryForm.TheVariants as binary_form;
ghost use Rattle.m5_meaning.specs.Reduction.{called_extern};
ghost use Rattle.m5_source_site.specs.Reductions.{reduction_of};

use crate::reduced::Reduced;
use m5_terms::form::BinaryForm;
use m5_terms::node::Node;
use m5_terms::opened::{LeafView, Opened};
use m5_terms::text::Text;
use m5_terms::types::Prim;
use std::alloc::{AllocError, Global};

fn with_text(alloc: Global, primitive: Prim, text: &Text) -> Result<Reduced, AllocError>
    ensures { IfOk result (λ r. reduction_of r ≡ called_extern primitive (leaf (leaf_form.Str text.now))) }
{
    match primitive {
        Prim::Say => Ok(Reduced::Says(text.copy(alloc)?)),
        Prim::Show => Ok(Reduced::Shows(text.copy(alloc)?)),
        Prim::GetText => Ok(Reduced::Gets(text.copy(alloc)?)),
        Prim::Read => Ok(Reduced::Reads(text.copy(alloc)?)),
        Prim::SetText | Prim::On | Prim::Write | Prim::Watch => Ok(Reduced::Wrong),
    }
}

/// A primitive that takes a pair, whose first part is a text.
fn with_name(
    alloc: Global,
    primitive: Prim,
    name: &Text,
    other: &Node,
) -> Result<Reduced, AllocError>
    ensures { IfOk result (λ r. reduction_of r ≡ called_extern primitive (binary binary_form.Pair (leaf (leaf_form.Str name.now)) other.now)) }
{
    match primitive {
        Prim::On => Ok(Reduced::Handles(name.copy(alloc)?, other.copy(alloc)?)),
        Prim::Watch => Ok(Reduced::Watches(name.copy(alloc)?, other.copy(alloc)?)),
        Prim::SetText => match other.open() {
            Opened::Leaf(LeafView::Str(text)) => {
                Ok(Reduced::Sets(name.copy(alloc)?, text.copy(alloc)?))
            }
            _ => Ok(Reduced::Wrong),
        },
        Prim::Write => match other.open() {
            Opened::Leaf(LeafView::Str(text)) => {
                Ok(Reduced::Writes(name.copy(alloc)?, text.copy(alloc)?))
            }
            _ => Ok(Reduced::Wrong),
        },
        Prim::Say | Prim::GetText | Prim::Read | Prim::Show => Ok(Reduced::Wrong),
    }
}

fn with_pair(
    alloc: Global,
    primitive: Prim,
    first: &Node,
    second: &Node,
) -> Result<Reduced, AllocError>
    ensures { IfOk result (λ r. reduction_of r ≡ called_extern primitive (binary binary_form.Pair first.now second.now)) }
{
    match first.open() {
        Opened::Leaf(LeafView::Str(name)) => with_name(alloc, primitive, name, second),
        _ => Ok(Reduced::Wrong),
    }
}

/// What the call of a primitive asks for.
pub(crate) fn call_extern(
    alloc: Global,
    primitive: Prim,
    argument: &Node,
) -> Result<Reduced, AllocError>
    ensures { IfOk result (λ r. reduction_of r ≡ called_extern primitive argument.now) }
{
    match argument.open() {
        Opened::Leaf(LeafView::Str(text)) => with_text(alloc, primitive, text),
        Opened::Binary(BinaryForm::Pair, first, second) => {
            with_pair(alloc, primitive, first, second)
        }
        _ => Ok(Reduced::Wrong),
    }
}
