//! Gets that go to another world with their continuations.

ghost use Rattle.std.specs.Prelude.{◌≡◌, OnOk};
ghost use Rattle.m5_cps_convert.specs.Convert.{is_leaf, is_plain, asks_at_once, away_to};
ghost use Rattle.m5_cps_convert.specs.code.Aways.{SendsHome};

use crate::walk::{Value, Walk};
use m5_cps::step::{Constant, Ending, Step, Straight};
use m5_terms::form::BinaryForm;
use m5_terms::node::Node;
use m5_terms::opened::{LeafView, Opened};
use m5_terms::types::{World, is_same_world};
use std::alloc::AllocError;

fn is_leaf(node: &Node) -> bool
    ensures { result ≡ is_leaf node.now }
{
    match node.open() {
        Opened::Leaf(_) => true,
        _ => false,
    }
}

/// What has straight code of a few steps.
fn is_plain(node: &Node) -> bool
    ensures { result ≡ is_plain node.now }
{
    match node.open() {
        Opened::Leaf(_) => true,
        Opened::Binary(BinaryForm::Pair, first, second) => is_leaf(first) && is_leaf(second),
        _ => false,
    }
}

/// The call of a primitive by its name with a plain argument.
fn asks_at_once(node: &Node) -> bool
    ensures { result ≡ asks_at_once node.now }
{
    match node.open() {
        Opened::Binary(BinaryForm::Call, first, second) => match first.open() {
            Opened::Leaf(LeafView::Extern(_)) => is_plain(second),
            _ => false,
        },
        _ => false,
    }
}

/// Where a get in a block at a world goes with its continuation.
pub(crate) fn away_to(own: World, first: &Node, second: &Node) -> Option<World>
    ensures { result ≡ away_to own first.now second.now }
{
    match first.open() {
        Opened::Leaf(LeafView::Addr(world)) => {
            if is_same_world(world, own) {
                None
            } else if asks_at_once(second) {
                Some(world)
            } else {
                None
            }
        }
        _ => None,
    }
}

/// A value goes to a world, for the continuation in a slot.
pub(crate) fn send_home(
    walk: &mut Walk,
    world: World,
    continuation: u32,
    value: Value,
) -> Result<(), AllocError>
    ensures { OnOk result (SendsHome walk.old walk.new world continuation value) }
{
    walk.steps
        .push(Step::Straight(Straight::Constant(Constant::Addr(world))))?;
    walk.steps.push(Step::Ends(Ending::Send(value.filled, continuation, value.slot)))?;
    Ok(())
}
