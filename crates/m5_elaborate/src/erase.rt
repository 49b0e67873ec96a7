//! Terms without their places.

ghost use Rattle.std.specs.Prelude.{◌≡◌, IfOk};
ghost use Rattle.m5_terms.specs.Expression.{binary};
ghost use Rattle.m5_terms.specs.declared.form.BinaryForm.TheVariants.{Pair};
ghost use Rattle.m5_elaborate.specs.Pairs.{nested_terms};
ghost use Rattle.m5_elaborate.specs.Erased.{erased, erased_function, erased_functions};

use m5_raw::function::Function as RawFunction;
use m5_raw::node::Node as RawNode;
use m5_terms::form::BinaryForm;
use m5_terms::node::{Node, NodeBox};
use m5_terms::opened::Opened;
use m5_typing::functions::{Function, Functions};
use std::alloc::{AllocError, Global};

/// The term of a node, in memory of its own.
#[cycle(erase)]
pub(crate) fn erase(alloc: Global, node: &RawNode) -> Result<Node, AllocError>
    ensures { IfOk result (λ n. n ≡ erased node.now) }
{
    match node.open() {
        Opened::Leaf(form) => Ok(Node::leaf(form.copy(alloc)?)),
        Opened::Unary(form, first) => {
            let copied = form.copy()?;
            Ok(Node::unary(copied, kept(alloc, first)?))
        }
        Opened::Binary(BinaryForm::Pair, first, second) => erase_pairs(alloc, first, second),
        Opened::Binary(form, first, second) => {
            Ok(Node::binary(form, kept(alloc, first)?, kept(alloc, second)?))
        }
        Opened::Ternary(form, first, second, third) => Ok(Node::ternary(
            form,
            kept(alloc, first)?,
            kept(alloc, second)?,
            kept(alloc, third)?,
        )),
    }
}

#[cycle(erase)]
fn kept(alloc: Global, node: &RawNode) -> Result<NodeBox, AllocError>
    ensures { IfOk result (λ n. n ≡ erased node.now) }
{
    NodeBox::new(alloc, erase(alloc, node)?)
}

/// The term of nested pairs, by a loop: a flat tuple nests as deep as it is long.
#[cycle(erase)]
fn erase_pairs(alloc: Global, first: &RawNode, second: &RawNode) -> Result<Node, AllocError>
    ensures { IfOk result (λ n. n ≡ binary Pair (erased first.now) (erased second.now)) }
{
    let mut parts = Vec::new(alloc);
    parts.push(kept(alloc, first)?)?;
    let mut rest = second;
    while let Opened::Binary(BinaryForm::Pair, part, later) = rest.open() {
        parts.push(kept(alloc, part)?)?;
        rest = later;
    }
    let last = erase(alloc, rest)?;
    nest(alloc, parts, last)
}

/// Nested pairs of these first parts, the outermost first.
#[tactic(auto, using(crate::proofs::PairSteps::nested_terms_more))]
fn nest(alloc: Global, mut parts: Vec<NodeBox>, last: Node) -> Result<Node, AllocError>
    ensures { IfOk result (λ n. n ≡ nested_terms parts.items last) }
{
    let mut whole = last;
    while let Some(part) = parts.pop() {
        let inner = NodeBox::new(alloc, whole)?;
        whole = Node::binary(BinaryForm::Pair, part, inner);
    }
    Ok(whole)
}

fn function(alloc: Global, function: &RawFunction) -> Result<Function, AllocError>
    ensures { IfOk result (λ g. g ≡ erased_function function.now) }
{
    let ty = function.ty.copy()?;
    let codomain = function.result.copy()?;
    let body = erase(alloc, &function.body)?;
    Ok(Function {
        world: function.world,
        parameter: function.parameter,
        ty,
        result: codomain,
        body,
    })
}

/// The declared functions with the terms of their bodies.
pub(crate) fn functions(alloc: Global, items: &[RawFunction]) -> Result<Functions, AllocError>
    ensures { IfOk result (λ gs. gs ≡ erased_functions items.now) }
{
    let mut list = Functions::make(alloc);
    let mut rest = items;
    while let Some((item, more)) = rest.split_first() {
        list.push(function(alloc, item)?)?;
        rest = more;
    }
    Ok(list)
}
