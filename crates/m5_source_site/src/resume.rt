//! What an answer makes of a site that waits for it.

ghost use Rattle.std.specs.Prelude.{◌≡◌, [], ◌∷◌, IfOk, Some, option_to_list, slice_get};
ghost use Rattle.m5_terms.specs.Expression.{Expression, unary, binary};
ghost use Rattle.m5_terms.specs.TypeExpression as type;
ghost use Rattle.m5_terms.specs.declared.ask.AnswerOf.TheVariants as answer;
ghost use Rattle.m5_terms.specs.declared.form.UnaryForm.TheVariants as unary_form;
ghost use Rattle.m5_terms.specs.declared.types.World.{World};
ghost use Rattle.m5_meaning.specs.Reduction.{unit_value, text_value, unit_or};
ghost use Rattle.m5_meaning.specs.Step.{after_done, after_get_text, after_read, after_take, stopped_by, begun, handler_thread, handler_threads};
ghost use Rattle.m5_source_site.specs.ClosedSite.{HasRoom};
ghost use Rattle.m5_source_site.specs.Waiting.{resumed};

use crate::item::{LinkItem, SiteAnswer, SiteItem};
use crate::measured::MeasuredProgram;
use crate::outcome::{return_text, step_to};
use crate::site::Site;
use crate::thread::{FrameQueue, SiteThread};
use m5_terms::ask::AnswerOf;
use m5_terms::form::{BinaryForm, LeafForm, UnaryForm};
use m5_terms::node::{Node, NodeBox};
use m5_terms::queue::Queue;
use m5_terms::text::Text;
use m5_terms::thread::Focus;
use m5_terms::types::{Shape, Ty, TypeBox, World};
use std::alloc::{AllocError, Global};

/// What a site does with the answer: only go on, take a text to the frames at a world, take what
/// was read there, begin threads, or stop.
#[derive(Drop)]
pub enum Wait {
    Done,
    Text(FrameQueue, World),
    Read(FrameQueue, World),
    Take,
    Stop,
}

/// A site that waits for the answer to its ask.
#[derive(Drop)]
pub struct Waiting {
    pub site: Site,
    pub wait: Wait,
}

/// After a primitive that only tells, or a send.
fn go_on(program: &MeasuredProgram<'_>, mut site: Site, reply: SiteAnswer) -> Option<Site>
    requires { HasRoom site }
    ensures { result ≡ after_done program.now site site.threads reply }
{
    match reply {
        AnswerOf::Done => {
            site.count_step(program, 0);
            Some(site)
        }
        _ => None,
    }
}

fn take_text(
    program: &MeasuredProgram<'_>,
    site: Site,
    frames: FrameQueue,
    at: World,
    reply: SiteAnswer,
) -> Result<Option<Site>, AllocError>
    requires { HasRoom site }
    ensures { IfOk result (λ o. o ≡ after_get_text program.now site site.threads frames at reply) }
{
    match reply {
        AnswerOf::Found(text) => Ok(Some(return_text(program, site, frames, at, text)?)),
        _ => Ok(None),
    }
}

/// The type of unit or a text.
fn unit_or_text(alloc: Global) -> Result<Ty, AllocError>
    ensures { IfOk result (λ t. t ≡ unit_or type.string) }
{
    let left = TypeBox::new(alloc, Ty::new(Shape::Unit))?;
    Ok(Ty::new(Shape::Sum(left, TypeBox::new(alloc, Ty::new(Shape::Str))?)))
}

fn found_value(alloc: Global, text: Text) -> Result<Node, AllocError>
    ensures { IfOk result (λ v. v ≡ unary (unary_form.Inr (unit_or type.string)) (text_value text)) }
{
    let kept = NodeBox::new(alloc, Node::leaf(LeafForm::Str(text)))?;
    Ok(Node::unary(UnaryForm::Inr(unit_or_text(alloc)?), kept))
}

fn missing_value(alloc: Global) -> Result<Node, AllocError>
    ensures { IfOk result (λ v. v ≡ unary (unary_form.Inl (unit_or type.string)) unit_value) }
{
    let kept = NodeBox::new(alloc, Node::leaf(LeafForm::Unit))?;
    Ok(Node::unary(UnaryForm::Inl(unit_or_text(alloc)?), kept))
}

fn take_read(
    alloc: Global,
    program: &MeasuredProgram<'_>,
    site: Site,
    frames: FrameQueue,
    at: World,
    reply: SiteAnswer,
) -> Result<Option<Site>, AllocError>
    requires { HasRoom site }
    ensures { IfOk result (λ o. o ≡ after_read program.now site site.threads frames at reply) }
{
    match reply {
        AnswerOf::Found(text) => {
            let made = text.bytes().len() as u64;
            let value = found_value(alloc, text)?;
            let focus = Focus::Returned(at, value);
            Ok(Some(step_to(program, site, made, frames, focus)?))
        }
        AnswerOf::Missing => {
            let focus = Focus::Returned(at, missing_value(alloc)?);
            Ok(Some(step_to(program, site, 0, frames, focus)?))
        }
        _ => Ok(None),
    }
}

fn stop(mut site: Site, reply: SiteAnswer) -> Option<Site>
    ensures { result ≡ stopped_by site reply }
{
    match reply {
        AnswerOf::Done => {
            site.stop();
            Some(site)
        }
        _ => None,
    }
}

/// The thread that calls a handler with a text.
fn calling(
    alloc: Global,
    here: World,
    handler: &Node,
    text: &Text,
) -> Result<SiteThread, AllocError>
    ensures { IfOk result (λ t. handler_thread here text.now (Some handler.now) ≡ t ∷ []) }
{
    let handler = NodeBox::new(alloc, handler.copy(alloc)?)?;
    let argument = NodeBox::new(alloc, Node::leaf(LeafForm::Str(text.copy(alloc)?)))?;
    let call = Node::binary(BinaryForm::Call, handler, argument);
    Ok(SiteThread::new(Queue::make(alloc), Focus::Eval(here, call)))
}

/// The thread of the handler of that number, if there is one.
fn thread_of_handler(
    alloc: Global,
    here: World,
    site: &Site,
    number: u32,
    text: &Text,
) -> Result<Option<SiteThread>, AllocError>
    ensures { IfOk result (λ o. handler_thread here text.now (slice_get site.now.handlers number) ≡ option_to_list o) }
{
    match site.handler(number) {
        Some(handler) => Ok(Some(calling(alloc, here, handler, text)?)),
        None => Ok(None),
    }
}

/// Begins the thread of a handler.
fn begin_handler(
    alloc: Global,
    here: World,
    mut site: Site,
    number: u32,
    text: &Text,
) -> Result<Site, AllocError>
    ensures { IfOk result (λ t. t ≡ begun site (handler_thread here text.now (slice_get site.handlers number))) }
{
    if let Some(thread) = thread_of_handler(alloc, here, &site, number, text)? {
        site.begin(thread)?;
    }
    Ok(site)
}

/// Begins the threads of handlers in their order.
fn begin_handlers(
    alloc: Global,
    here: World,
    site: Site,
    numbers: &[u32],
    text: &Text,
) -> Result<Site, AllocError>
    ensures { IfOk result (λ t. t ≡ begun site (handler_threads here site numbers.now text.now)) }
{
    let mut after = site;
    for number in numbers {
        after = begin_handler(alloc, here, after, *number, text)?;
    }
    Ok(after)
}

/// A thread that arrives goes into the queue, and raw bytes change nothing.
fn take_item(mut site: Site, item: LinkItem) -> Result<Site, AllocError>
    ensures { (u v : World) → IfOk result (λ t. after_take u site (answer.Message v item) ≡ Some t) }
{
    match item.into_item() {
        SiteItem::Thread(thread) => {
            site.begin(thread)?;
            Ok(site)
        }
        SiteItem::Raw(_) => Ok(site),
    }
}

/// The threads of a message, or of the handlers that are told.
fn take_news(
    alloc: Global,
    here: World,
    site: Site,
    reply: SiteAnswer,
) -> Result<Option<Site>, AllocError>
    ensures { IfOk result (λ o. o ≡ after_take here site reply) }
{
    match reply {
        AnswerOf::Message(_, item) => Ok(Some(take_item(site, item)?)),
        AnswerOf::Fired(_, number, text) => {
            Ok(Some(begin_handlers(alloc, here, site, &[number], &text)?))
        }
        AnswerOf::Event(_, numbers, text) => {
            Ok(Some(begin_handlers(alloc, here, site, numbers.as_slice(), &text)?))
        }
        _ => Ok(None),
    }
}

impl Waiting {
    /// The site with the answer to its ask, or nothing where the answer is no answer to it.
    pub fn resume(
        self,
        alloc: Global,
        program: &MeasuredProgram<'_>,
        here: World,
        reply: SiteAnswer,
    ) -> Result<Option<Site>, AllocError>
        requires { HasRoom self.site }
        ensures { IfOk result (λ o. o ≡ resumed program.now here self.site self.wait reply) }
    {
        let Waiting { site, wait } = self;
        match wait {
            Wait::Done => Ok(go_on(program, site, reply)),
            Wait::Text(frames, at) => take_text(program, site, frames, at, reply),
            Wait::Read(frames, at) => take_read(alloc, program, site, frames, at, reply),
            Wait::Take => take_news(alloc, here, site, reply),
            Wait::Stop => Ok(stop(site, reply)),
        }
    }
}
