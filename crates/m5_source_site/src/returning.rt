//! A value that comes back.

ghost use Rattle.std.specs.Prelude.{◌≡◌, ◌∷◌, IfOk, All};
ghost use Rattle.m5_terms.specs.Closed.{IsClosed};
ghost use Rattle.m5_terms.specs.declared.types.World.{World};
ghost use Rattle.m5_terms.specs.declared.thread.Focus.TheVariants.{Returned};
ghost use Rattle.m5_terms.specs.declared.thread.Frame.TheVariants.{Part, Return};
ghost use Rattle.m5_meaning.specs.Parts.{fill};
ghost use Rattle.m5_terms.specs.Machine.{goes};
ghost use Rattle.m5_meaning.specs.Reduction.{reduced};
ghost use Rattle.m5_meaning.specs.Step.{thread_of, part_begun, outcome, returned};
ghost use Rattle.m5_meaning.specs.Site.{Program, Thread};
ghost use Rattle.m5_source_site.specs.ClosedSite.{HasRoom, IsClosedFrame};
ghost use Rattle.m5_source_site.specs.Reductions.{reduction_of};
ghost use Rattle.m5_source_site.specs.Waiting.{with_front, lacks_place, Stands};

use crate::item::LinkItem;
use crate::measured::MeasuredProgram;
use crate::next::Next;
use crate::outcome::{conclude, full, step_to};
use crate::parts::{copy_part, count_of_parts, filled, world_of_parts};
use crate::reduce::{reduce_binary, reduce_ternary, reduce_unary};
use crate::reduced::Reduced;
use crate::resume::{Wait, Waiting};
use crate::site::Site;
use crate::thread::{FrameQueue, SiteThread};
use m5_terms::ask::{AskOf, Cause};
use m5_terms::node::Node;
use m5_terms::opened::Opened;
use m5_terms::thread::{Focus, Frame};
use m5_terms::types::World;
use std::alloc::{AllocError, Global};

/// Looks at a part of a node, with the node as the frame that waits for it.
pub(crate) fn begin_part(
    alloc: Global,
    program: &MeasuredProgram<'_>,
    site: Site,
    mut frames: FrameQueue,
    at: World,
    node: Node,
    hole: u32,
) -> Result<Site, AllocError>
    requires { HasRoom site }
    ensures { IfOk result (λ t. part_begun program.now site site.threads frames at node hole ≡ goes t) }
{
    let part = copy_part(alloc, &node, hole)?;
    let inner = world_of_parts(&node, at);
    frames.push_front(Frame::Part {
        world: at,
        node,
        hole,
    })?;
    step_to(program, site, 0, frames, Focus::Eval(inner, part))
}

/// What the node becomes with the value in its last part.
fn reduce(
    alloc: Global,
    program: &MeasuredProgram<'_>,
    here: World,
    frame: (&Node, u32),
    value: &Node,
) -> Result<Reduced, AllocError>
    requires node { IsClosed frame.0.now }
    requires value { IsClosed value.now }
    ensures { IfOk result (λ r. reduction_of r ≡ reduced program.now here (fill frame.entry.0.now frame.entry.1 value.now)) }
{
    let (node, hole) = frame;
    match node.open() {
        Opened::Leaf(_) => Ok(Reduced::Wrong),
        Opened::Unary(form, _) => reduce_unary(alloc, here, &form, value),
        Opened::Binary(form, first, second) => {
            if hole == 0 {
                reduce_binary(alloc, program, here, form, value, second)
            } else {
                reduce_binary(alloc, program, here, form, first, value)
            }
        }
        Opened::Ternary(form, _, second, third) => {
            reduce_ternary(alloc, form, value, second, third)
        }
    }
}

/// Whether what the reduction adds to is full.
fn has_no_place(site: &Site, reduced: &Reduced) -> bool
    ensures { result ≡ lacks_place site.now (reduction_of reduced.now) }
{
    match reduced {
        Reduced::MakesCell(_) => site.lacks_cell_place(),
        Reduced::Handles(_, _) | Reduced::Watches(_, _) => site.lacks_handler_place(),
        _ => false,
    }
}

/// The site as it was before the top frame of its front thread was taken off, to be stopped.
fn full_at_frame(
    site: Site,
    mut frames: FrameQueue,
    frame: Frame,
    focus: Focus,
) -> Result<Waiting, AllocError>
    ensures { IfOk result (λ x. x ≡ record { site = with_front (thread_of (frame ∷ frames) focus) site; wait = Wait.Stop }) }
{
    frames.push_front(frame)?;
    full(site, frames, focus)
}

/// The value comes to the last part of a frame's node, which is reduced.
fn fill_last_part(
    alloc: Global,
    program: &MeasuredProgram<'_>,
    here: World,
    site: Site,
    frames: FrameQueue,
    frame: (World, Node, u32),
    given: (World, Node),
) -> Result<Next, AllocError>
    requires room { HasRoom site }
    requires node { IsClosed frame.1 }
    requires value { IsClosed given.1 }
    ensures { IfOk result (λ a. Stands program.now here a (outcome program.now here (with_front (thread_of (Part frame.0 frame.1 frame.2 ∷ frames) (Returned given.0 given.1)) site) site.threads frames frame.0 (reduced program.now here (fill frame.1 frame.2 given.1)))) }
{
    let (world, node, hole) = frame;
    let (at, value) = given;
    let reduced = reduce(alloc, program, here, (&node, hole), &value)?;
    if has_no_place(&site, &reduced) {
        let frame = Frame::Part { world, node, hole };
        let waiting = full_at_frame(site, frames, frame, Focus::Returned(at, value))?;
        Ok(Next::Asks(AskOf::Stop(Cause::Table), waiting))
    } else {
        conclude(alloc, program, here, site, frames, world, reduced)
    }
}

/// The value comes to a part of a frame's node.
fn fill_part(
    alloc: Global,
    program: &MeasuredProgram<'_>,
    here: World,
    site: Site,
    frames: FrameQueue,
    frame: (World, Node, u32),
    given: (World, Node),
) -> Result<Next, AllocError>
    requires room { HasRoom site }
    requires node { IsClosed frame.1 }
    requires value { IsClosed given.1 }
    ensures { IfOk result (λ a. Stands program.now here a (returned program.now here (with_front (thread_of (Part frame.0 frame.1 frame.2 ∷ frames) (Returned given.0 given.1)) site) site.threads (Part frame.0 frame.1 frame.2 ∷ frames) given.0 given.1)) }
{
    let (world, node, hole) = frame;
    if hole < count_of_parts(&node).saturating_sub(1) {
        let (_, value) = given;
        let node = filled(alloc, node, hole, value)?;
        let after = begin_part(alloc, program, site, frames, world, node, hole + 1)?;
        Ok(Next::Goes(after))
    } else {
        fill_last_part(
            alloc,
            program,
            here,
            site,
            frames,
            (world, node, hole),
            given,
        )
    }
}

/// The value goes back to the world that the frame names.
fn return_to_world(site: Site, frames: FrameQueue, there: World, value: Node) -> Next
    ensures { (P : Program) (u : World) (w : World) (t : Thread) → Stands P u result (returned P u (with_front t site) site.threads (Return there ∷ frames) w value) }
{
    let thread = SiteThread::new(frames, Focus::Returned(there, value));
    let wait = Wait::Done;
    Next::Asks(
        AskOf::Send(there, LinkItem::of_thread(thread)),
        Waiting { site, wait },
    )
}

/// The value ends the thread, fills the hole of its top frame, or goes back to another world.
pub(crate) fn return_value(
    alloc: Global,
    program: &MeasuredProgram<'_>,
    here: World,
    mut site: Site,
    mut frames: FrameQueue,
    given: (World, Node),
) -> Result<Next, AllocError>
    requires room { HasRoom site }
    requires frames { All IsClosedFrame frames }
    requires value { IsClosed given.1 }
    ensures { IfOk result (λ a. Stands program.now here a (returned program.now here (with_front (thread_of frames (Returned given.0 given.1)) site) site.threads frames given.0 given.1)) }
{
    match frames.pop_front() {
        None => {
            site.count_step(program, 0);
            Ok(Next::Goes(site))
        }
        Some(Frame::Part { world, node, hole }) => {
            fill_part(
                alloc,
                program,
                here,
                site,
                frames,
                (world, node, hole),
                given,
            )
        }
        Some(Frame::Return(there)) => {
            let (_, value) = given;
            Ok(return_to_world(site, frames, there, value))
        }
    }
}
