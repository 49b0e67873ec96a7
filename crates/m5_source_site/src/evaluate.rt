//! A term that is looked at.

ghost use Rattle.std.specs.Prelude.{◌≡◌, ◌<◌, ◌^◌, [], ◌∷◌, ◌++◌, IfOk, MatchOption};
ghost use Rattle.m5_terms.specs.Expression.{unary};
ghost use Rattle.m5_terms.specs.declared.form.UnaryForm.TheVariants as unary_form;
ghost use Rattle.m5_terms.specs.declared.thread.Focus.TheVariants.{Eval, Returned};
ghost use Rattle.m5_meaning.specs.Reduction.{unit_value};
ghost use Rattle.m5_meaning.specs.Parts.{parts};
ghost use Rattle.m5_meaning.specs.Step.{thread_of, stepped, atom, evaluated};
ghost use Rattle.m5_source_site.specs.ClosedSite.{HasRoom};
ghost use Rattle.m5_source_site.specs.Atoms.{IsSpawn, atom_value, atom_made};
ghost use Rattle.m5_source_site.specs.Waiting.{with_front, Stands};

use crate::measured::MeasuredProgram;
use crate::next::Next;
use crate::outcome::{full, step_to};
use crate::parts::count_of_parts;
use crate::returning::begin_part;
use crate::site::Site;
use crate::thread::{FrameQueue, SiteThread};
use m5_terms::ask::{AskOf, Cause};
use m5_terms::form::LeafForm;
use m5_terms::node::Node;
use m5_terms::opened::{LeafView, Opened, UnaryView};
use m5_terms::queue::Queue;
use m5_terms::thread::Focus;
use m5_terms::types::World;
use std::alloc::{AllocError, Global};

/// A copy of what is to be spawned, if the node spawns.
fn copy_spawned(alloc: Global, node: &Node) -> Result<Option<Node>, AllocError>
    ensures { IfOk result (λ o. MatchOption o (¬ IsSpawn node.now) (λ a. node.now ≡ unary unary_form.Spawn a)) }
{
    match node.open() {
        Opened::Unary(UnaryView::Spawn, body) => Ok(Some(body.copy(alloc)?)),
        _ => Ok(None),
    }
}

/// The value of a node without evaluated parts, and how many bytes of text it makes.
fn value_of_atom(at: World, node: Node) -> (Node, u64)
    ensures value { result.0 ≡ atom_value at node }
    ensures made { result.1 ≡ atom_made node }
    ensures bound { result.1 < 2 ^ 63 }
{
    match node.open() {
        Opened::Leaf(LeafView::Here) => (Node::leaf(LeafForm::Addr(at)), 0),
        Opened::Leaf(LeafView::Str(text)) => {
            let made = text.bytes().len() as u64;
            (node, made)
        }
        _ => (node, 0),
    }
}

/// The front thread goes on with unit, and what is spawned runs after the others.
fn spawn(
    alloc: Global,
    program: &MeasuredProgram<'_>,
    mut site: Site,
    frames: FrameQueue,
    at: World,
    body: Node,
) -> Result<Site, AllocError>
    requires { HasRoom site }
    ensures { IfOk result (λ t. t ≡ stepped program.now 0 site ((thread_of frames (Returned at unit_value) ∷ site.threads) ++ thread_of [] (Eval at body) ∷ [])) }
{
    site.put_back(SiteThread::new(Queue::make(alloc), Focus::Eval(at, body)))?;
    let unit = Node::leaf(LeafForm::Unit);
    step_to(program, site, 0, frames, Focus::Returned(at, unit))
}

/// A node without evaluated parts.
fn evaluate_atom(
    alloc: Global,
    program: &MeasuredProgram<'_>,
    here: World,
    site: Site,
    frames: FrameQueue,
    given: (World, Node),
) -> Result<Next, AllocError>
    requires { HasRoom site }
    ensures { IfOk result (λ a. Stands program.now here a (atom program.now (with_front (thread_of frames (Eval given.0 given.1)) site) site.threads frames given.0 given.1)) }
{
    let (at, node) = given;
    match copy_spawned(alloc, &node)? {
        Some(body) => {
            if site.lacks_place_beside_front() {
                let waiting = full(site, frames, Focus::Eval(at, node))?;
                Ok(Next::Asks(AskOf::Stop(Cause::Table), waiting))
            } else {
                Ok(Next::Goes(spawn(alloc, program, site, frames, at, body)?))
            }
        }
        None => {
            let (value, made) = value_of_atom(at, node);
            let after = step_to(program, site, made, frames, Focus::Returned(at, value))?;
            Ok(Next::Goes(after))
        }
    }
}

/// The first part of a node is looked at, or the node is a value.
pub(crate) fn evaluate(
    alloc: Global,
    program: &MeasuredProgram<'_>,
    here: World,
    site: Site,
    frames: FrameQueue,
    given: (World, Node),
) -> Result<Next, AllocError>
    requires { HasRoom site }
    ensures { IfOk result (λ a. Stands program.now here a (evaluated program.now (with_front (thread_of frames (Eval given.0 given.1)) site) site.threads frames given.0 given.1 (parts given.1))) }
{
    let (at, node) = given;
    if count_of_parts(&node) == 0 {
        evaluate_atom(alloc, program, here, site, frames, (at, node))
    } else {
        let after = begin_part(alloc, program, site, frames, at, node, 0)?;
        Ok(Next::Goes(after))
    }
}
