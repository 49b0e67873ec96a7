//! What a script lists: pairs of the key store, page events, raw bytes and sites.

ghost use Rattle.std.specs.Prelude.{◌≡◌, IfOk};

use m5_terms::listed::Listed;
use m5_terms::text::Text;
use m5_terms::types::World;
use std::alloc::{AllocError, Global};

/// A key of the key store and its text at the opening.
#[derive(Drop)]
pub struct TextPair {
    pub key: Text,
    pub text: Text,
}

/// An event of a session's page at an element, with its text.
#[derive(Drop)]
pub struct PageEvent {
    pub session: u32,
    pub element: Text,
    pub text: Text,
}

/// Bytes in the link to the site of a session's world at the opening.
#[derive(Drop)]
pub struct RawItem {
    pub session: u32,
    pub world: World,
    pub bytes: Text,
}

/// A site by its session, from 1, and its world.
#[derive(Clone, Copy, Debug, PartialEq, Eq)]
pub struct SiteName {
    pub session: u32,
    pub world: World,
}

pub type TextPairs = Listed<TextPair>;

pub type PageEvents = Listed<PageEvent>;

pub type RawItems = Listed<RawItem>;

pub type Sites = Listed<SiteName>;

impl TextPair {
    fn copy(&self, alloc: Global) -> Result<TextPair, AllocError>
        ensures { IfOk result (λ p. p ≡ self.now) }
    {
        Ok(TextPair {
            key: self.key.copy(alloc)?,
            text: self.text.copy(alloc)?,
        })
    }
}

impl PageEvent {
    fn copy(&self, alloc: Global) -> Result<PageEvent, AllocError>
        ensures { IfOk result (λ e. e ≡ self.now) }
    {
        Ok(PageEvent {
            session: self.session,
            element: self.element.copy(alloc)?,
            text: self.text.copy(alloc)?,
        })
    }
}

impl RawItem {
    fn copy(&self, alloc: Global) -> Result<RawItem, AllocError>
        ensures { IfOk result (λ r. r ≡ self.now) }
    {
        Ok(RawItem {
            session: self.session,
            world: self.world,
            bytes: self.bytes.copy(alloc)?,
        })
    }
}

/// The same pairs again.
pub(crate) fn copy_pairs(alloc: Global, pairs: &TextPairs) -> Result<TextPairs, AllocError>
    ensures { IfOk result (λ p. p ≡ pairs.now) }
{
    let mut copies = TextPairs::make(alloc);
    for pair in pairs.as_slice() {
        copies.push(pair.copy(alloc)?)?;
    }
    Ok(copies)
}

/// The same events again.
pub(crate) fn copy_events(alloc: Global, events: &PageEvents) -> Result<PageEvents, AllocError>
    ensures { IfOk result (λ e. e ≡ events.now) }
{
    let mut copies = PageEvents::make(alloc);
    for event in events.as_slice() {
        copies.push(event.copy(alloc)?)?;
    }
    Ok(copies)
}

/// The same raw items again.
pub(crate) fn copy_raws(alloc: Global, raws: &RawItems) -> Result<RawItems, AllocError>
    ensures { IfOk result (λ r. r ≡ raws.now) }
{
    let mut copies = RawItems::make(alloc);
    for item in raws.as_slice() {
        copies.push(item.copy(alloc)?)?;
    }
    Ok(copies)
}
