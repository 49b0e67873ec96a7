//! The board's answer to each ask.

ghost use Rattle.std.specs.Prelude.{◌≡◌, length, IfOk, OnErr};
ghost use Rattle.m5_terms.specs.Worlds.{IsSiteWorld};
ghost use Rattle.m5_terms.specs.declared.types.World.{World};
ghost use Rattle.m5_terms.specs.declared.ask.AskOf.TheVariants as ask;
ghost use Rattle.m5_terms.specs.declared.ask.AnswerOf.TheVariants as answer;
ghost use Rattle.m5_board.specs.Boards.{IsSession};
ghost use Rattle.m5_board.specs.Answers.{IsAnswered};

use crate::board::{Answered, Board};
use crate::desks::{on, send, set_text};
use crate::tell::write_told;
use m5_keys::watch::Watcher;
use m5_terms::ask::{Act, AnswerOf, AskOf};
use m5_terms::item::Item;
use m5_terms::text::Text;
use m5_terms::types::World;
use std::alloc::{AllocError, Global};

/// What is only told.
fn done<I>(act: Act) -> Answered<I>
    ensures { result ≡ record { reply = answer.Done; act = act } }
{
    Answered {
        reply: AnswerOf::Done,
        act,
    }
}

fn act_of_set(alloc: Global, element: &Text, text: &Text) -> Result<Act, AllocError>
    ensures { IfOk result (λ a. a ≡ Act.Set element.now text.now) }
{
    let copy = element.copy(alloc)?;
    Ok(Act::Set(copy, text.copy(alloc)?))
}

fn act_of_write(alloc: Global, key: &Text, text: &Text) -> Result<Act, AllocError>
    ensures { IfOk result (λ a. a ≡ Act.Write key.now text.now) }
{
    let copy = key.copy(alloc)?;
    Ok(Act::Write(copy, text.copy(alloc)?))
}

impl<I: Item> Board<I> {
    /// Sets the text of an element of the session's page.
    fn set(
        &mut self,
        alloc: Global,
        session: u32,
        element: Text,
        text: Text,
    ) -> Result<Answered<I>, AllocError>
        requires { IsSession session self.old.desks }
        ensures answered { (w : World) → IfOk result (λ a. IsAnswered (I.has_seal session) session w (ask.Set element text) self.old self.new a) }
        ensures count { length self.new.desks ≡ length self.old.desks }
        ensures err { OnErr result (self.new ≡ self.old) }
    {
        let act = act_of_set(alloc, &element, &text)?;
        set_text(&mut self.desks, session, element, text)?;
        Ok(done(act))
    }

    fn get_text(
        &self,
        alloc: Global,
        session: u32,
        element: Text,
    ) -> Result<Answered<I>, AllocError>
        requires { IsSession session self.now.desks }
        ensures { (w : World) → IfOk result (λ a. IsAnswered (I.has_seal session) session w (ask.GetText element) self.now self.now a) }
    {
        let desk = &self.desks[session as usize - 1];
        let found = desk.get_text(element.bytes());
        let act = Act::GetText(element, Text::of(alloc, found)?);
        let reply = AnswerOf::Found(Text::of(alloc, found)?);
        Ok(Answered { reply, act })
    }

    fn on(
        &mut self,
        alloc: Global,
        session: u32,
        element: Text,
        number: u32,
    ) -> Result<Answered<I>, AllocError>
        requires { IsSession session self.old.desks }
        ensures answered { (w : World) → IfOk result (λ a. IsAnswered (I.has_seal session) session w (ask.On element number) self.old self.new a) }
        ensures count { length self.new.desks ≡ length self.old.desks }
        ensures err { OnErr result (self.new ≡ self.old) }
    {
        let act = Act::On(element.copy(alloc)?);
        on(&mut self.desks, session, element, number)?;
        Ok(done(act))
    }

    fn read(&self, alloc: Global, session: u32, key: Text) -> Result<Answered<I>, AllocError>
        ensures { (w : World) → IfOk result (λ a. IsAnswered (I.has_seal session) session w (ask.Read key) self.now self.now a) }
    {
        match self.keys.read(key.bytes()) {
            Some(text) => {
                let act = Act::ReadSome(key, Text::of(alloc, text)?);
                let reply = AnswerOf::Found(Text::of(alloc, text)?);
                Ok(Answered { reply, act })
            }
            None => {
                let act = Act::ReadNone(key);
                let reply = AnswerOf::Missing;
                Ok(Answered { reply, act })
            }
        }
    }

    fn watch(
        &mut self,
        alloc: Global,
        session: u32,
        key: Text,
        number: u32,
    ) -> Result<Answered<I>, AllocError>
        requires { IsSession session self.old.desks }
        ensures answered { (w : World) → IfOk result (λ a. IsAnswered (I.has_seal session) session w (ask.Watch key number) self.old self.new a) }
        ensures count { length self.new.desks ≡ length self.old.desks }
        ensures err { OnErr result (self.new ≡ self.old) }
    {
        let act = Act::Watch(key.copy(alloc)?);
        self.keys.watch(key, Watcher { session, number })?;
        Ok(done(act))
    }

    fn write(
        &mut self,
        alloc: Global,
        session: u32,
        key: Text,
        text: Text,
    ) -> Result<Answered<I>, AllocError>
        ensures answered { (w : World) → IfOk result (λ a. IsAnswered (I.has_seal session) session w (ask.Write key text) self.old self.new a) }
        ensures count { length self.new.desks ≡ length self.old.desks }
        ensures err { OnErr result (self.new ≡ self.old) }
    {
        let act = act_of_write(alloc, &key, &text)?;
        let watchers = self.keys.watchers(alloc, key.bytes())?;
        write_told(
            alloc,
            &mut self.keys,
            &mut self.desks,
            watchers.as_slice(),
            key,
            text,
        )?;
        Ok(done(act))
    }

    /// A send to a world without a site is lost.
    fn send(
        &mut self,
        session: u32,
        from: World,
        to: World,
        item: I,
    ) -> Result<Answered<I>, AllocError>
        requires session { IsSession session self.old.desks }
        requires from { IsSiteWorld from }
        ensures answered { IfOk result (λ a. IsAnswered (I.has_seal session) session from (ask.Send to item) self.old self.new a) }
        ensures count { length self.new.desks ≡ length self.old.desks }
        ensures err { OnErr result (self.new ≡ self.old) }
    {
        if matches!(to, World::Any) {
            return Ok(done(Act::Send(to)));
        }
        send(&mut self.desks, session, from, to, item)?;
        Ok(done(Act::Send(to)))
    }

    /// The answer to what a session's site at a world asks, and what the history shows of it. Where
    /// memory is wanting, the board stays as it was.
    pub fn answer(
        &mut self,
        alloc: Global,
        session: u32,
        at: World,
        asked: AskOf<I>,
    ) -> Result<Answered<I>, AllocError>
        requires session { IsSession session self.old.desks }
        requires at { IsSiteWorld at }
        ensures answered { IfOk result (λ a. IsAnswered (I.has_seal session) session at asked self.old self.new a) }
        ensures count { length self.new.desks ≡ length self.old.desks }
        ensures err { OnErr result (self.new ≡ self.old) }
    {
        match asked {
            AskOf::Say(text) => Ok(done(Act::Say(text))),
            AskOf::Set(element, text) => self.set(alloc, session, element, text),
            AskOf::GetText(element) => self.get_text(alloc, session, element),
            AskOf::On(element, number) => self.on(alloc, session, element, number),
            AskOf::Read(key) => self.read(alloc, session, key),
            AskOf::Write(key, text) => self.write(alloc, session, key, text),
            AskOf::Watch(key, number) => self.watch(alloc, session, key, number),
            AskOf::Show(text) => Ok(done(Act::Show(text))),
            AskOf::Send(to, item) => self.send(session, at, to, item),
            AskOf::Take => self.take(alloc, session, at),
            AskOf::Stop(cause) => Ok(done(Act::Stop(cause))),
        }
    }
}
