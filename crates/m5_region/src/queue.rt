//! The threads of a site that are ready.

ghost use Rattle.std.specs.Prelude.{◌≡◌, ◌<◌, ◌≤◌, ◌∷◌, [], ◌++◌, length, IfOk, IfSome, IfNone, nat_lt, if◌then◌else◌};

use crate::limits::MOST_ITEMS;
use crate::value::Value;
use std::alloc::{AllocError, Global};
use std::collections::VecDeque;
use std::marker::Model;

/// A thread that is ready: the closure to enter, and its argument.
#[derive(Clone, Copy, PartialEq, Eq, Debug)]
pub struct Ready {
    pub code: Value,
    pub argument: Value,
}

/// At most 4,096 threads that are ready, in order.
#[derive(Drop)]
pub struct Queue {
    held: VecDeque<Ready>,
}

impl Model for Queue {
    ghost use Rattle.std.specs.Prelude.{List, ◌≤◌, length};
    ghost use Rattle.std.specs.VecDeque.{deque_capacity};
    ghost use Rattle.m5_region.specs.declared.limits.TheConstants.{MOST_ITEMS};
    ghost use Rattle.m5_region.specs.declared.queue.Ready.{Ready};

    ghost Value = { List Ready };

    ghost view = { λ q. q.held.items };

    ghost invariant = { λ q.
        (length q.held.items ≤ MOST_ITEMS) × (MOST_ITEMS ≤ deque_capacity q.held) };
}

impl Queue {
    /// No threads, with all their room reserved.
    pub fn make(alloc: Global) -> Result<Queue, AllocError>
        ensures { IfOk result (λ threads. threads ≡ []) }
    {
        let held = VecDeque::with_capacity(alloc, MOST_ITEMS)?;
        Ok(Queue { held })
    }

    /// How many threads there are.
    pub fn len(&self) -> u32
        ensures count { result ≡ length self.now }
        ensures within { result ≤ MOST_ITEMS }
    {
        self.held.len() as u32
    }

    /// Adds a thread after the others; false where there are 4,096, and then nothing changes.
    pub fn push(&mut self, item: Ready) -> bool
        ensures room { result ≡ nat_lt (length self.old) MOST_ITEMS }
        ensures threads { self.new ≡ (if result then self.old ++ item ∷ [] else self.old) }
    {
        if self.held.len() == MOST_ITEMS {
            return false;
        }
        self.held.push_back_reserved(item);
        true
    }

    /// Adds a thread before the others; false where there are 4,096, and then nothing changes.
    pub fn push_front(&mut self, item: Ready) -> bool
        ensures room { result ≡ nat_lt (length self.old) MOST_ITEMS }
        ensures threads { self.new ≡ (if result then item ∷ self.old else self.old) }
    {
        if self.held.len() == MOST_ITEMS {
            return false;
        }
        self.held.push_front_reserved(item);
        true
    }

    /// Takes the first thread off, where there is one.
    pub fn pop(&mut self) -> Option<Ready>
        ensures first { IfSome result (λ first. self.old ≡ first ∷ self.new) }
        ensures none { IfNone result (self.old ≡ []) }
        ensures unchanged { IfNone result (self.new ≡ []) }
    {
        self.held.pop_front()
    }
}
