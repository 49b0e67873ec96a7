//! Labels: of blocks, with what their closures take, and of primitives.

use m5_cps::entry::Entry;
use m5_terms::listed::Listed;
use m5_terms::types::Prim;

/// What a slot has: a value of a type by number, or what is entered with such a thing, so many times over.
#[derive(Clone, Copy)]
pub struct Kind {
    pub times: usize,
    pub number: usize,
}

/// A label's block: how it is entered, what its closures take, and the place where it begins.
#[derive(Drop)]
pub struct Label {
    pub entry: Entry,
    pub environment: Listed<Kind>,
    pub place: usize,
}

/// A primitive that is a value somewhere, and its label.
#[derive(Clone, Copy)]
pub struct Named {
    pub label: usize,
    pub primitive: Prim,
}
