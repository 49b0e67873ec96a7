//! What a site does next once a node is reduced.

ghost use Rattle.std.specs.Prelude.{◌≡◌, ◌<◌, ◌^◌, false, [], ◌∷◌, ◌++◌, length, IfOk, slice_get};
ghost use Rattle.m5_terms.specs.Expression.{leaf};
ghost use Rattle.m5_terms.specs.declared.form.LeafForm.TheVariants as leaf_form;
ghost use Rattle.m5_terms.specs.declared.thread.Focus.TheVariants.{Eval, Returned};
ghost use Rattle.m5_terms.specs.declared.thread.Frame.TheVariants.{Return};
ghost use Rattle.m5_terms.specs.declared.types.World.{World};
ghost use Rattle.m5_meaning.specs.Site.{Program};
ghost use Rattle.m5_meaning.specs.Step.{stepped, thread_of, stored, outcome, is_full};
ghost use Rattle.m5_meaning.specs.Reduction.{unit_value};
ghost use Rattle.m5_source_site.specs.ClosedSite.{HasRoom};
ghost use Rattle.m5_source_site.specs.Reductions.{reduction_of};
ghost use Rattle.m5_source_site.specs.Waiting.{with_front, lacks_place, IsAsk, Stands};

use crate::item::LinkItem;
use crate::measured::MeasuredProgram;
use crate::next::Next;
use crate::reduced::Reduced;
use crate::resume::{Wait, Waiting};
use crate::site::Site;
use crate::thread::{FrameQueue, SiteThread};
use m5_terms::ask::AskOf;
use m5_terms::form::LeafForm;
use m5_terms::node::Node;
use m5_terms::text::Text;
use m5_terms::thread::{Focus, Frame};
use m5_terms::types::World;
use std::alloc::{AllocError, Global};

/// The site after one step more, its front thread with these frames and this focus.
pub(crate) fn step_to(
    program: &MeasuredProgram<'_>,
    mut site: Site,
    made: u64,
    frames: FrameQueue,
    focus: Focus,
) -> Result<Site, AllocError>
    requires room { HasRoom site }
    requires made { made < 2 ^ 63 }
    ensures { IfOk result (λ t. t ≡ stepped program.now made site (thread_of frames focus ∷ site.threads)) }
{
    site.put_front(SiteThread::new(frames, focus))?;
    site.count_step(program, made);
    Ok(site)
}

/// The site whose front thread gets unit once the ask is answered.
fn told(mut site: Site, frames: FrameQueue, at: World) -> Result<Waiting, AllocError>
    ensures { IfOk result (λ x. x ≡ record { site = with_front (thread_of frames (Returned at unit_value)) site; wait = Wait.Done }) }
{
    let unit = Focus::Returned(at, Node::leaf(LeafForm::Unit));
    site.put_front(SiteThread::new(frames, unit))?;
    Ok(Waiting {
        site,
        wait: Wait::Done,
    })
}

/// The site as it was before its front thread was taken off, to be stopped.
pub(crate) fn full(mut site: Site, frames: FrameQueue, focus: Focus) -> Result<Waiting, AllocError>
    ensures { IfOk result (λ x. x ≡ record { site = with_front (thread_of frames focus) site; wait = Wait.Stop }) }
{
    site.put_front(SiteThread::new(frames, focus))?;
    Ok(Waiting {
        site,
        wait: Wait::Stop,
    })
}

pub(crate) fn return_text(
    program: &MeasuredProgram<'_>,
    site: Site,
    frames: FrameQueue,
    at: World,
    text: Text,
) -> Result<Site, AllocError>
    requires { HasRoom site }
    ensures { IfOk result (λ t. t ≡ stepped program.now (length text) site (thread_of frames (Returned at (leaf (leaf_form.Str text))) ∷ site.threads)) }
{
    let made = text.bytes().len() as u64;
    let value = Node::leaf(LeafForm::Str(text));
    step_to(program, site, made, frames, Focus::Returned(at, value))
}

fn return_cell(
    program: &MeasuredProgram<'_>,
    here: World,
    mut site: Site,
    frames: FrameQueue,
    at: World,
    content: Node,
) -> Result<Site, AllocError>
    requires room { HasRoom site }
    requires place { is_full site.cells ≡ false }
    ensures { IfOk result (λ t. t ≡ record (stepped program.now 0 site (thread_of frames (Returned at (leaf (leaf_form.CellAt here (length site.cells)))) ∷ site.threads)) { cells = site.cells ++ content ∷ [] }) }
{
    let number = site.add_cell(content)?;
    let value = Node::leaf(LeafForm::CellAt(here, number));
    step_to(program, site, 0, frames, Focus::Returned(at, value))
}

fn copy_cell(alloc: Global, site: &Site, number: u32) -> Result<Option<Node>, AllocError>
    ensures { IfOk result (λ o. o ≡ slice_get site.now.cells number) }
{
    match site.cell(number) {
        Some(content) => Ok(Some(content.copy(alloc)?)),
        None => Ok(None),
    }
}

/// Puts the content into the cell of that number, or is wrong where the site has none.
fn store(
    program: &MeasuredProgram<'_>,
    mut site: Site,
    frames: FrameQueue,
    at: World,
    cell: (u32, Node),
) -> Result<Next, AllocError>
    requires { HasRoom site }
    ensures { (u : World) → IfOk result (λ a. Stands program.now u a (stored program.now site site.threads frames at cell.0 cell.1 (slice_get site.cells cell.0))) }
{
    let (number, content) = cell;
    if site.cell(number).is_none() {
        return Ok(Next::Wrong);
    }
    site.set_cell(number, content);
    let unit = Focus::Returned(at, Node::leaf(LeafForm::Unit));
    Ok(Next::Goes(step_to(program, site, 0, frames, unit)?))
}

/// The thread that leaves, whose value is to come back to where it was.
fn leaving(
    mut frames: FrameQueue,
    at: World,
    there: World,
    term: Node,
) -> Result<SiteThread, AllocError>
    ensures { IfOk result (λ t. t ≡ thread_of (Return at ∷ frames) (Eval there term)) }
{
    frames.push_front(Frame::Return(at))?;
    Ok(SiteThread::new(frames, Focus::Eval(there, term)))
}

/// The site with one handler more, and the handler's number.
fn registered(
    mut site: Site,
    frames: FrameQueue,
    at: World,
    handler: Node,
) -> Result<(u32, Waiting), AllocError>
    requires { is_full site.handlers ≡ false }
    ensures number { IfOk result (λ r. r.0 ≡ length site.handlers) }
    ensures waiting { IfOk result (λ r. r.1 ≡ record { site = with_front (thread_of frames (Returned at unit_value)) (record site { handlers = site.handlers ++ handler ∷ [] }); wait = Wait.Done }) }
{
    let number = site.add_handler(handler)?;
    Ok((number, told(site, frames, at)?))
}

/// What a reduction leads to whose site asks the board.
fn ask(site: Site, frames: FrameQueue, at: World, reduced: Reduced) -> Result<Next, AllocError>
    requires asks { IsAsk (reduction_of reduced) }
    requires place { lacks_place site (reduction_of reduced) ≡ false }
    ensures { (P : Program) (u : World) → IfOk result (λ a. Stands P u a (outcome P u site site.threads frames at (reduction_of reduced))) }
{
    match reduced {
        Reduced::Says(text) => { Ok(Next::Asks(AskOf::Say(text), told(site, frames, at)?)) }
        Reduced::Shows(text) => { Ok(Next::Asks(AskOf::Show(text), told(site, frames, at)?)) }
        Reduced::Sets(element, text) => {
            Ok(Next::Asks(AskOf::Set(element, text), told(site, frames, at)?))
        }
        Reduced::Writes(key, text) => {
            Ok(Next::Asks(AskOf::Write(key, text), told(site, frames, at)?))
        }
        Reduced::Gets(element) => {
            let wait = Wait::Text(frames, at);
            Ok(Next::Asks(AskOf::GetText(element), Waiting { site, wait }))
        }
        Reduced::Reads(key) => {
            let wait = Wait::Read(frames, at);
            Ok(Next::Asks(AskOf::Read(key), Waiting { site, wait }))
        }
        Reduced::Handles(element, handler) => {
            let (number, waiting) = registered(site, frames, at, handler)?;
            Ok(Next::Asks(AskOf::On(element, number), waiting))
        }
        Reduced::Watches(key, handler) => {
            let (number, waiting) = registered(site, frames, at, handler)?;
            Ok(Next::Asks(AskOf::Watch(key, number), waiting))
        }
        Reduced::Leaves(there, term) => {
            let thread = leaving(frames, at, there, term)?;
            let wait = Wait::Done;
            Ok(Next::Asks(
                AskOf::Send(there, LinkItem::of_thread(thread)),
                Waiting { site, wait },
            ))
        }
        _ => unreachable!(),
    }
}

/// What a reduction leads to, at the world `here` of the site, where there is a place for what it
/// adds.
pub(crate) fn conclude(
    alloc: Global,
    program: &MeasuredProgram<'_>,
    here: World,
    site: Site,
    frames: FrameQueue,
    at: World,
    reduced: Reduced,
) -> Result<Next, AllocError>
    requires room { HasRoom site }
    requires place { lacks_place site (reduction_of reduced) ≡ false }
    ensures { IfOk result (λ a. Stands program.now here a (outcome program.now here site site.threads frames at (reduction_of reduced))) }
{
    match reduced {
        Reduced::Gives(value) => {
            let after = step_to(program, site, 0, frames, Focus::Returned(at, value))?;
            Ok(Next::Goes(after))
        }
        Reduced::MakesText(text) => {
            Ok(Next::Goes(return_text(program, site, frames, at, text)?))
        }
        Reduced::GoesOn(term) => {
            let after = step_to(program, site, 0, frames, Focus::Eval(at, term))?;
            Ok(Next::Goes(after))
        }
        Reduced::MakesCell(value) => {
            Ok(Next::Goes(return_cell(program, here, site, frames, at, value)?))
        }
        Reduced::Loads(number) => match copy_cell(alloc, &site, number)? {
            Some(value) => {
                let after = step_to(program, site, 0, frames, Focus::Returned(at, value))?;
                Ok(Next::Goes(after))
            }
            None => Ok(Next::Wrong),
        },
        Reduced::Stores(number, value) => store(program, site, frames, at, (number, value)),
        Reduced::Wrong => Ok(Next::Wrong),
        asked => ask(site, frames, at, asked),
    }
}
