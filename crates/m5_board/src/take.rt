//! What is new for a site: the first item of a link to it, else a page event or a trigger.

ghost use Rattle.std.specs.Prelude.{◌≡◌, [], length, IfOk, OnErr, MatchOption};
ghost use Rattle.m5_terms.specs.Worlds.{IsSiteWorld, site_worlds};
ghost use Rattle.m5_terms.specs.declared.types.World.TheVariants.{Home, Server};
ghost use Rattle.m5_terms.specs.declared.ask.AskOf.TheVariants as ask;
ghost use Rattle.m5_terms.specs.declared.ask.AnswerOf.TheVariants as answer;
ghost use Rattle.m5_network.specs.Board.{answered, take_at, take_from, take_other, handlers_of, link};
ghost use Rattle.m5_network.specs.Board as network;
ghost use Rattle.m5_network.specs.Entries.{shown};
ghost use Rattle.m5_board.specs.Boards.{board_of, desk_at, IsSession};
ghost use Rattle.m5_board.specs.Answers.{IsAnswered, IsAnsweredBy};

use crate::board::{Answered, Board};
use crate::desk::Desk;
use crate::desks::{next_event, next_trigger, receive, take_event, take_trigger};
use m5_keys::watch::Trigger;
use m5_page::row::Event;
use m5_terms::ask::{Act, AnswerOf};
use m5_terms::item::Item;
use m5_terms::types::World;
use m5_terms::worlds::worlds_of_sites;
use std::alloc::{AllocError, Global};

/// An item with the session's seal is taken, and another one is refused.
fn received<I: Item>(session: u32, from: World, item: I) -> Answered<I>
    ensures reply { result.reply ≡ answer.Message from item }
    ensures act { result.act ≡ shown (I.has_seal session) ask.Take (answer.Message from item) }
{
    let act = if item.is_sealed(session) {
        Act::Take(from)
    } else {
        Act::Refuse
    };
    Answered {
        reply: AnswerOf::Message(from, item),
        act,
    }
}

/// What a page event tells, with the numbers of its element's handlers.
fn happened<I>(
    alloc: Global,
    desks: &[Desk<I>],
    session: u32,
    event: Event,
) -> Result<Answered<I>, AllocError>
    requires { IsSession session desks.now }
    ensures reply { IfOk result (λ a. a.reply ≡ answer.Event event.element (handlers_of (desk_at desks.now session).handlers event.element) event.text) }
    ensures act { IfOk result (λ a. a.act ≡ Act.Event event.element event.text) }
{
    let Event { element, text } = event;
    let numbers = desks[session as usize - 1].handlers_of(alloc, element.bytes())?;
    let act = Act::Event(element.copy(alloc)?, text.copy(alloc)?);
    Ok(Answered {
        reply: AnswerOf::Event(element, numbers, text),
        act,
    })
}

/// What a trigger tells.
fn fired<I>(alloc: Global, trigger: Trigger) -> Result<Answered<I>, AllocError>
    ensures reply { IfOk result (λ a. a.reply ≡ answer.Fired trigger.key trigger.number trigger.text) }
    ensures act { IfOk result (λ a. a.act ≡ Act.Fire trigger.key) }
{
    let Trigger { key, number, text } = trigger;
    let act = Act::Fire(key.copy(alloc)?);
    Ok(Answered {
        reply: AnswerOf::Fired(key, number, text),
        act,
    })
}

/// There is nothing new.
fn nothing<I>() -> Answered<I>
    ensures { result ≡ record { reply = answer.Nothing; act = Act.Refuse } }
{
    Answered {
        reply: AnswerOf::Nothing,
        act: Act::Refuse,
    }
}

impl<I: Item> Board<I> {
    /// Takes the first item off a link.
    fn receive(&mut self, session: u32, from: World, to: World) -> Option<I>
        requires session { IsSession session self.old.desks }
        requires from { IsSiteWorld from }
        requires to { IsSiteWorld to }
        ensures item { MatchOption result ((link (desk_at self.old.desks session) from to ≡ []) × (self.new ≡ self.old)) (λ i. (rest : network.Answered I) → take_from (board_of self.old) session to from (link (desk_at self.old.desks session) from to) rest ≡ answered (answer.Message from i) (board_of self.new)) }
        ensures count { length self.new.desks ≡ length self.old.desks }
    {
        receive(&mut self.desks, session, from, to)
    }

    /// The first item of the first link to the site that has one, and the world that it is from.
    fn take_message(&mut self, session: u32, at: World) -> Option<(World, I)>
        requires session { IsSession session self.old.desks }
        requires at { IsSiteWorld at }
        ensures item { MatchOption result ((take_at (board_of self.old) session at site_worlds ≡ take_other (board_of self.old) session at) × (self.new ≡ self.old)) (λ p. take_at (board_of self.old) session at site_worlds ≡ answered (answer.Message p.0 p.1) (board_of self.new)) }
        ensures count { length self.new.desks ≡ length self.old.desks }
    {
        for from in worlds_of_sites() {
            match self.receive(session, from, at) {
                Some(item) => return Some((from, item)),
                None => {}
            }
        }
        None
    }

    fn take_event(&mut self, alloc: Global, session: u32) -> Result<Answered<I>, AllocError>
        requires { IsSession session self.old.desks }
        ensures answered { IfOk result (λ a. IsAnsweredBy (I.has_seal session) (take_other (board_of self.old) session Home) ask.Take self.new a) }
        ensures count { length self.new.desks ≡ length self.old.desks }
        ensures err { OnErr result (self.new ≡ self.old) }
    {
        match next_event(alloc, self.desks.as_slice(), session)? {
            Some(event) => {
                let answered = happened(alloc, self.desks.as_slice(), session, event)?;
                take_event(&mut self.desks, session);
                Ok(answered)
            }
            None => Ok(nothing()),
        }
    }

    fn take_trigger(&mut self, alloc: Global, session: u32) -> Result<Answered<I>, AllocError>
        requires { IsSession session self.old.desks }
        ensures answered { IfOk result (λ a. IsAnsweredBy (I.has_seal session) (take_other (board_of self.old) session Server) ask.Take self.new a) }
        ensures count { length self.new.desks ≡ length self.old.desks }
        ensures err { OnErr result (self.new ≡ self.old) }
    {
        match next_trigger(alloc, self.desks.as_slice(), session)? {
            Some(trigger) => {
                let answered = fired(alloc, trigger)?;
                take_trigger(&mut self.desks, session);
                Ok(answered)
            }
            None => Ok(nothing()),
        }
    }

    /// What is new for the session's site at a world.
    pub(crate) fn take(
        &mut self,
        alloc: Global,
        session: u32,
        at: World,
    ) -> Result<Answered<I>, AllocError>
        requires session { IsSession session self.old.desks }
        requires at { IsSiteWorld at }
        ensures answered { IfOk result (λ a. IsAnswered (I.has_seal session) session at ask.Take self.old self.new a) }
        ensures count { length self.new.desks ≡ length self.old.desks }
        ensures err { OnErr result (self.new ≡ self.old) }
    {
        match self.take_message(session, at) {
            Some((from, item)) => return Ok(received(session, from, item)),
            None => {}
        }
        match at {
            World::Home => self.take_event(alloc, session),
            World::Server => self.take_trigger(alloc, session),
            World::Panel | World::Any => Ok(nothing()),
        }
    }
}
