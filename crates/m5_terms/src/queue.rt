//! A list that grows at both its ends.

ghost use Rattle.std.specs.Option.{option_map};
ghost use Rattle.std.specs.Prelude.{◌≡◌, [], ◌∷◌, ◌++◌, ◌<◌, length, slice_get, OnOk, OnErr, MatchOption};

use std::alloc::{AllocError, Global};
use std::collections::VecDeque;
use std::marker::Model;

/// A list, which contracts see as the list of its items from the front.
#[derive(Drop)]
pub struct Queue<T> {
    held: VecDeque<T>,
}

impl<T> Model for Queue<T> {
    ghost use Rattle.std.specs.Prelude.{List};
    ghost use Rattle.std.specs.Coded.{coded_list};

    ghost Value = { List T };

    ghost coded = { coded_list T.code };

    ghost view = { λ q. q.held.items };
}

impl<T> Queue<T> {
    /// The empty list.
    pub fn make(alloc: Global) -> Queue<T>
        ensures { result ≡ [] }
    {
        Queue {
            held: VecDeque::new(alloc),
        }
    }

    /// How many items it holds.
    pub fn count(&self) -> u64
        ensures { result ≡ length self.now }
    {
        self.held.len() as u64
    }

    /// The item at an index from 0.
    pub fn at(&self, index: u64) -> &T
        requires { index < length self.now }
        ensures { slice_get self.now index ≡ Some result.now }
    {
        &self.held[index as usize]
    }

    /// The first item, if there is one.
    pub fn front(&self) -> Option<&T>
        ensures { option_map (λ x. x.now) result ≡ slice_get self.now 0 }
    {
        self.held.front()
    }

    /// Takes the first item off.
    pub fn pop_front(&mut self) -> Option<T>
        ensures { MatchOption result ((self.old ≡ []) × (self.new ≡ [])) (λ item. self.old ≡ item ∷ self.new) }
    {
        self.held.pop_front()
    }

    /// Takes the last item off.
    pub fn pop_back(&mut self) -> Option<T>
        ensures { MatchOption result ((self.old ≡ []) × (self.new ≡ [])) (λ item. self.old ≡ self.new ++ item ∷ []) }
    {
        self.held.pop_back()
    }
}

impl<T: Drop> Queue<T> {
    /// Adds an item before the others. Where memory is wanting, the list stays as it was.
    pub fn push_front(&mut self, item: T) -> Result<(), AllocError>
        ensures ok { OnOk result (self.new ≡ item ∷ self.old) }
        ensures err { OnErr result (self.new ≡ self.old) }
    {
        self.held.push_front(item)?;
        Ok(())
    }

    /// Adds an item after the others. Where memory is wanting, the list stays as it was.
    pub fn push_back(&mut self, item: T) -> Result<(), AllocError>
        ensures ok { OnOk result (self.new ≡ self.old ++ item ∷ []) }
        ensures err { OnErr result (self.new ≡ self.old) }
    {
        self.held.push_back(item)?;
        Ok(())
    }
}
