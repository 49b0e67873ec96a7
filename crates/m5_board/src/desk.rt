//! What one session has: its page, its triggers, the events left and its links.

ghost use Rattle.std.specs.Prelude.{◌≡◌, [], ◌∷◌, ◌++◌, slice_get, IfOk, OnOk, OnErr, MatchOption};
ghost use Rattle.std.specs.Option.{unwrap_or};
ghost use Rattle.m5_terms.specs.Worlds.{IsSiteWorld};
ghost use Rattle.m5_network.specs.Board.{text_at, set_at, handlers_of, link, with_link};
ghost use Rattle.m5_board.specs.Boards.{TakesLink, IsUnfired};

use m5_keys::watch::Trigger;
use m5_page::page::Page;
use m5_page::row::Event;
use m5_terms::ask::Numbers;
use m5_terms::per_world::PerWorld;
use m5_terms::queue::Queue;
use m5_terms::text::Text;
use m5_terms::types::World;
use std::alloc::{AllocError, Global};
use std::marker::Model;

/// What one session has, with a link from each of its worlds to each.
#[derive(Drop)]
pub struct Desk<I> {
    page: Page,
    triggers: Queue<Trigger>,
    events: Queue<Event>,
    links: PerWorld<PerWorld<Queue<I>>>,
}

impl<I> Model for Desk<I> {
    ghost use Rattle.m5_network.specs.Board.{Desk};

    ghost Value = { Desk I };

    ghost view = { λ d. record { texts = d.page.texts; handlers = d.page.handlers; triggers = d.triggers; events = d.events; links = d.links } };
}

fn copy_of_trigger(alloc: Global, trigger: &Trigger) -> Result<Trigger, AllocError>
    ensures { IfOk result (λ t. t ≡ trigger.now) }
{
    let key = trigger.key.copy(alloc)?;
    let text = trigger.text.copy(alloc)?;
    Ok(Trigger {
        key,
        number: trigger.number,
        text,
    })
}

fn copy_of_event(alloc: Global, event: &Event) -> Result<Event, AllocError>
    ensures { IfOk result (λ e. e ≡ event.now) }
{
    let element = event.element.copy(alloc)?;
    let text = event.text.copy(alloc)?;
    Ok(Event { element, text })
}

impl<I> Desk<I> {
    /// A page without texts, with the events and the links that it opens with.
    pub fn opening(
        alloc: Global,
        events: Queue<Event>,
        links: PerWorld<PerWorld<Queue<I>>>,
    ) -> Desk<I>
        ensures { result ≡ record { texts = []; handlers = []; triggers = []; events = events; links = links } }
    {
        Desk {
            page: Page::make(alloc),
            triggers: Queue::make(alloc),
            events,
            links,
        }
    }

    pub fn get_text(&self, element: &[u8]) -> &[u8]
        ensures { result.now ≡ unwrap_or (text_at self.now.texts element.now) [] }
    {
        self.page.get_text(element)
    }

    pub fn set_text(&mut self, element: Text, text: Text) -> Result<(), AllocError>
        ensures ok { OnOk result (self.new ≡ record self.old { texts = set_at self.old.texts element text }) }
        ensures err { OnErr result (self.new ≡ self.old) }
    {
        self.page.set_text(element, text)
    }

    /// Registers a handler of an element.
    pub fn on(&mut self, element: Text, number: u32) -> Result<(), AllocError>
        ensures ok { OnOk result (self.new ≡ record self.old { handlers = self.old.handlers ++ record { element = element; number = number } ∷ [] }) }
        ensures err { OnErr result (self.new ≡ self.old) }
    {
        self.page.on(element, number)
    }

    /// The numbers of an element's handlers, in order of registration.
    pub fn handlers_of(&self, alloc: Global, element: &[u8]) -> Result<Numbers, AllocError>
        ensures { IfOk result (λ ns. ns ≡ handlers_of self.now.handlers element.now) }
    {
        self.page.event(alloc, element)
    }

    /// Adds a trigger behind the others.
    pub fn fire(&mut self, trigger: Trigger) -> Result<(), AllocError>
        ensures ok { OnOk result (self.new ≡ record self.old { triggers = self.old.triggers ++ trigger ∷ [] }) }
        ensures err { OnErr result (self.new ≡ self.old) }
    {
        self.triggers.push_back(trigger)
    }

    /// Takes off the trigger that was added last.
    pub fn unfire(&mut self)
        ensures { IsUnfired self.old self.new }
    {
        let _last = self.triggers.pop_back();
    }

    /// The first trigger, again in memory of its own.
    pub fn next_trigger(&self, alloc: Global) -> Result<Option<Trigger>, AllocError>
        ensures { IfOk result (λ o. o ≡ slice_get self.now.triggers 0) }
    {
        match self.triggers.front() {
            Some(trigger) => Ok(Some(copy_of_trigger(alloc, trigger)?)),
            None => Ok(None),
        }
    }

    /// The next event, again in memory of its own.
    pub fn next_event(&self, alloc: Global) -> Result<Option<Event>, AllocError>
        ensures { IfOk result (λ o. o ≡ slice_get self.now.events 0) }
    {
        match self.events.front() {
            Some(event) => Ok(Some(copy_of_event(alloc, event)?)),
            None => Ok(None),
        }
    }

    pub fn take_trigger(&mut self) -> Option<Trigger>
        ensures { MatchOption result ((self.old.triggers ≡ []) × (self.new ≡ self.old)) (λ t. self.old ≡ record self.new { triggers = t ∷ self.new.triggers }) }
    {
        self.triggers.pop_front()
    }

    pub fn take_event(&mut self) -> Option<Event>
        ensures { MatchOption result ((self.old.events ≡ []) × (self.new ≡ self.old)) (λ e. self.old ≡ record self.new { events = e ∷ self.new.events }) }
    {
        self.events.pop_front()
    }

    /// Takes the first item off a link.
    pub fn receive(&mut self, from: World, to: World) -> Option<I>
        requires from { IsSiteWorld from }
        requires to { IsSiteWorld to }
        ensures { MatchOption result ((link self.old from to ≡ []) × (self.new ≡ self.old)) (λ i. TakesLink from to i self.old self.new) }
    {
        self.links.get_mut(from).get_mut(to).pop_front()
    }
}

impl<I: Drop> Desk<I> {
    /// Puts an item behind those of a link.
    pub fn send(&mut self, from: World, to: World, item: I) -> Result<(), AllocError>
        requires from { IsSiteWorld from }
        requires to { IsSiteWorld to }
        ensures ok { OnOk result (self.new ≡ with_link from to (link self.old from to ++ item ∷ []) self.old) }
        ensures err { OnErr result (self.new ≡ self.old) }
    {
        self.links.get_mut(from).get_mut(to).push_back(item)
    }
}
