//! The board that a script opens with.

ghost use Rattle.std.specs.Prelude.{◌≡◌, ◌++◌, [], ◌∷◌, length, false, IfOk, OnOk};
ghost use Rattle.std.specs.List.{AllPairs};
ghost use Rattle.m5_terms.specs.PerWorld.{each};
ghost use Rattle.m5_script.specs.Scenario.{same_key};
ghost use Rattle.m5_script.specs.declared.items.TextPair.{TextPair as TextPairOf};
ghost use Rattle.m5_network.specs.Opening.{raw_from, opening_desk_by, opening_board_by};
ghost use Rattle.m5_board.specs.Boards.{board_of};
ghost use Rattle.m5_board.specs.Opening.{session_events, link_items, links_opened, desks_opened};

use crate::board::Board;
use crate::desk::Desk;
use m5_keys::keys::Keys;
use m5_page::row::Event;
use m5_script::items::{PageEvent, RawItem, TextPair};
use m5_script::script::Script;
use m5_terms::item::Item;
use m5_terms::per_world::PerWorld;
use m5_terms::queue::Queue;
use m5_terms::types::{World, is_same_world};
use std::alloc::{AllocError, Global};

/// Adds the event behind the others where it is of the session.
fn add_event(
    alloc: Global,
    left: &mut Queue<Event>,
    event: &PageEvent,
    session: u32,
) -> Result<(), AllocError>
    ensures { OnOk result (left.new ≡ left.old ++ session_events (event.now ∷ []) session) }
{
    if event.session == session {
        let element = event.element.copy(alloc)?;
        let text = event.text.copy(alloc)?;
        left.push_back(Event { element, text })
    } else {
        Ok(())
    }
}

/// The events of a session, in their order.
fn events_of(alloc: Global, events: &[PageEvent], session: u32) -> Result<Queue<Event>, AllocError>
    ensures { IfOk result (λ q. q ≡ session_events events.now session) }
{
    let mut left = Queue::make(alloc);
    for event in events {
        add_event(alloc, &mut left, event, session)?;
    }
    Ok(left)
}

/// The world from which raw bytes come to a site.
fn raw_source(to: World) -> World
    ensures { result ≡ raw_from to }
{
    match to {
        World::Home => World::Server,
        _ => World::Home,
    }
}

/// A session's links from one world.
type LinksFrom<I> = PerWorld<Queue<I>>;

/// Adds the raw bytes behind the others where they lie in the link.
fn add_raw<I: Item>(
    alloc: Global,
    link: &mut Queue<I>,
    item: &RawItem,
    session: u32,
    from: World,
    to: World,
) -> Result<(), AllocError>
    ensures { OnOk result (link.new ≡ link.old ++ link_items I.raw session from to (item.now ∷ [])) }
{
    if item.session == session
        && is_same_world(item.world, to)
        && is_same_world(from, raw_source(to))
    {
        let bytes = item.bytes.copy(alloc)?;
        link.push_back(I::of_raw(bytes))
    } else {
        Ok(())
    }
}

/// The raw bytes that lie in the link of a session from one world to another.
fn link_of<I: Item>(
    alloc: Global,
    raws: &[RawItem],
    session: u32,
    from: World,
    to: World,
) -> Result<Queue<I>, AllocError>
    ensures { IfOk result (λ q. q ≡ link_items I.raw session from to raws.now) }
{
    let mut link = Queue::make(alloc);
    for item in raws {
        add_raw(alloc, &mut link, item, session, from, to)?;
    }
    Ok(link)
}

/// The links of a session from one world, with the raw bytes that lie in them.
fn links_from<I: Item>(
    alloc: Global,
    raws: &[RawItem],
    session: u32,
    from: World,
) -> Result<LinksFrom<I>, AllocError>
    ensures { IfOk result (λ l. l ≡ links_opened I.raw raws.now session from) }
{
    PerWorld::of_each(|to: World| link_of(alloc, raws, session, from, to))
}

/// All links of a session.
fn links_of<I: Item>(
    alloc: Global,
    raws: &[RawItem],
    session: u32,
) -> Result<PerWorld<LinksFrom<I>>, AllocError>
    ensures { IfOk result (λ l. l ≡ each (links_opened I.raw raws.now session)) }
{
    PerWorld::of_each(|from: World| links_from(alloc, raws, session, from))
}

fn open_desk<I: Item>(alloc: Global, script: &Script, session: u32) -> Result<Desk<I>, AllocError>
    ensures { IfOk result (λ d. d ≡ opening_desk_by I.raw script.now session) }
{
    let events = events_of(alloc, script.events.as_slice(), session)?;
    let links = links_of(alloc, script.raws.as_slice(), session)?;
    Ok(Desk::opening(alloc, events, links))
}

fn open_desks<I: Item>(alloc: Global, script: &Script) -> Result<Vec<Desk<I>>, AllocError>
    ensures { IfOk result (λ v. v.items ≡ desks_opened I.raw script.now script.now.sessions) }
{
    let mut desks = Vec::new(alloc);
    for before in 0..script.sessions {
        desks.push(open_desk(alloc, script, before + 1)?)?;
    }
    Ok(desks)
}

/// The key store with these pairs, whose keys all differ.
fn open_keys(alloc: Global, pairs: &[TextPair]) -> Result<Keys, AllocError>
    requires { AllPairs (λ (p q : TextPairOf). same_key q.key p ≡ false) pairs.now }
    ensures { IfOk result (λ k. k ≡ record { pairs = pairs.now; watches = [] }) }
{
    let mut keys = Keys::make(alloc);
    for pair in pairs {
        let key = pair.key.copy(alloc)?;
        let text = pair.text.copy(alloc)?;
        keys.write(key, text)?;
    }
    Ok(keys)
}

impl<I: Item> Board<I> {
    /// The board with the script's pairs, events and raw bytes: a home's raw bytes lie in the link
    /// from its server, and those of any other site in the link from its home.
    pub fn opening(alloc: Global, script: &Script) -> Result<Board<I>, AllocError>
        ensures board { IfOk result (λ b. board_of b ≡ opening_board_by I.raw script.now) }
        ensures count { IfOk result (λ b. length b.desks ≡ script.now.sessions) }
    {
        let keys = open_keys(alloc, script.pairs.as_slice())?;
        let desks = open_desks(alloc, script)?;
        Ok(Board::without_watches(keys, desks))
    }
}
