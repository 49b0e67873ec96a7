//! Who watches a key, and what a write makes for a watcher.

use m5_terms::listed::Listed;
use m5_terms::text::Text;

/// A session's handler that is told of writes.
#[derive(Clone, Copy, Debug, PartialEq, Eq)]
pub struct Watcher {
    pub session: u32,
    pub number: u32,
}

/// A watch of a key by a session's handler.
#[derive(Drop)]
pub struct Watch {
    pub key: Text,
    pub session: u32,
    pub number: u32,
}

/// A write that a handler is still to be told of.
#[derive(Drop)]
pub struct Trigger {
    pub key: Text,
    pub number: u32,
    pub text: Text,
}

pub type Watchers = Listed<Watcher>;
