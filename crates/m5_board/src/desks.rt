//! The desks of all sessions, numbered from 1.

ghost use Rattle.std.specs.Prelude.{◌≡◌, ◌++◌, [], ◌∷◌, length, slice_get, IfOk, OnOk, OnErr, MatchOption, ℕ};
ghost use Rattle.m5_terms.specs.Worlds.{IsSiteWorld};
ghost use Rattle.m5_network.specs.Board.{Trigger as TriggerOf, Desk as DeskOf, set_at, link, with_link};
ghost use Rattle.m5_board.specs.Answers.{fired};
ghost use Rattle.m5_board.specs.Boards.{desk_at, IsSession, ChangesDesk, Receives, TakesTrigger, TakesEvent};

use crate::desk::Desk;
use m5_keys::watch::Trigger;
use m5_page::row::Event;
use m5_terms::text::Text;
use m5_terms::types::World;
use std::alloc::{AllocError, Global};

/// Sets the text of an element of a session's page.
pub(crate) fn set_text<I>(
    desks: &mut Vec<Desk<I>>,
    session: u32,
    element: Text,
    text: Text,
) -> Result<(), AllocError>
    requires { IsSession session desks.old.items }
    ensures ok { OnOk result (ChangesDesk session (λ (d : DeskOf I). record d { texts = set_at d.texts element text }) desks.old.items desks.new.items) }
    ensures err { OnErr result (desks.new.items ≡ desks.old.items) }
{
    let desk = &mut desks[session as usize - 1];
    desk.set_text(element, text)
}

/// Registers a handler of an element of a session's page.
pub(crate) fn on<I>(
    desks: &mut Vec<Desk<I>>,
    session: u32,
    element: Text,
    number: u32,
) -> Result<(), AllocError>
    requires { IsSession session desks.old.items }
    ensures ok { OnOk result (ChangesDesk session (λ (d : DeskOf I). record d { handlers = d.handlers ++ record { element = element; number = number } ∷ [] }) desks.old.items desks.new.items) }
    ensures err { OnErr result (desks.new.items ≡ desks.old.items) }
{
    let desk = &mut desks[session as usize - 1];
    desk.on(element, number)
}

/// Adds a trigger to a session's.
pub(crate) fn fire<I>(
    desks: &mut Vec<Desk<I>>,
    session: u32,
    trigger: Trigger,
) -> Result<(), AllocError>
    requires { IsSession session desks.old.items }
    ensures ok { OnOk result (ChangesDesk session (λ (d : DeskOf I). record d { triggers = d.triggers ++ trigger ∷ [] }) desks.old.items desks.new.items) }
    ensures err { OnErr result (desks.new.items ≡ desks.old.items) }
{
    let desk = &mut desks[session as usize - 1];
    desk.fire(trigger)
}

/// Takes off the trigger that was added last to a session's.
pub(crate) fn unfire<I>(desks: &mut Vec<Desk<I>>, session: u32)
    requires { IsSession session desks.old.items }
    ensures trigger { (f : ℕ → DeskOf I) → (t : TriggerOf) → desk_at desks.old.items ≡ fired t session f → desk_at desks.new.items ≡ f }
    ensures count { length desks.new.items ≡ length desks.old.items }
{
    let desk = &mut desks[session as usize - 1];
    desk.unfire();
}

/// A session's first trigger, again in memory of its own.
pub(crate) fn next_trigger<I>(
    alloc: Global,
    desks: &[Desk<I>],
    session: u32,
) -> Result<Option<Trigger>, AllocError>
    requires { IsSession session desks.now }
    ensures { IfOk result (λ o. o ≡ slice_get (desk_at desks.now session).triggers 0) }
{
    desks[session as usize - 1].next_trigger(alloc)
}

/// A session's next page event, again in memory of its own.
pub(crate) fn next_event<I>(
    alloc: Global,
    desks: &[Desk<I>],
    session: u32,
) -> Result<Option<Event>, AllocError>
    requires { IsSession session desks.now }
    ensures { IfOk result (λ o. o ≡ slice_get (desk_at desks.now session).events 0) }
{
    desks[session as usize - 1].next_event(alloc)
}

/// Puts an item behind those of a session's link.
pub(crate) fn send<I: Drop>(
    desks: &mut Vec<Desk<I>>,
    session: u32,
    from: World,
    to: World,
    item: I,
) -> Result<(), AllocError>
    requires session { IsSession session desks.old.items }
    requires from { IsSiteWorld from }
    requires to { IsSiteWorld to }
    ensures ok { OnOk result (ChangesDesk session (λ (d : DeskOf I). with_link from to (link d from to ++ item ∷ []) d) desks.old.items desks.new.items) }
    ensures err { OnErr result (desks.new.items ≡ desks.old.items) }
{
    let desk = &mut desks[session as usize - 1];
    desk.send(from, to, item)
}

/// Takes the first item off a session's link.
pub(crate) fn receive<I>(
    desks: &mut Vec<Desk<I>>,
    session: u32,
    from: World,
    to: World,
) -> Option<I>
    requires session { IsSession session desks.old.items }
    requires from { IsSiteWorld from }
    requires to { IsSiteWorld to }
    ensures { MatchOption result ((link (desk_at desks.old.items session) from to ≡ []) × (desks.new.items ≡ desks.old.items)) (λ i. Receives session from to i desks.old.items desks.new.items) }
{
    let desk = &mut desks[session as usize - 1];
    desk.receive(from, to)
}

/// Takes a session's first trigger.
pub(crate) fn take_trigger<I>(desks: &mut Vec<Desk<I>>, session: u32) -> Option<Trigger>
    requires { IsSession session desks.old.items }
    ensures { MatchOption result (((desk_at desks.old.items session).triggers ≡ []) × (desks.new.items ≡ desks.old.items)) (λ t. TakesTrigger session t desks.old.items desks.new.items) }
{
    let desk = &mut desks[session as usize - 1];
    desk.take_trigger()
}

/// Takes a session's next page event.
pub(crate) fn take_event<I>(desks: &mut Vec<Desk<I>>, session: u32) -> Option<Event>
    requires { IsSession session desks.old.items }
    ensures { MatchOption result (((desk_at desks.old.items session).events ≡ []) × (desks.new.items ≡ desks.old.items)) (λ e. TakesEvent session e desks.old.items desks.new.items) }
{
    let desk = &mut desks[session as usize - 1];
    desk.take_event()
}
