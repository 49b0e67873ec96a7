//! The cells of a site.

ghost use Rattle.std.specs.Prelude.{◌≡◌, ◌<◌, ◌≤◌, ◌∷◌, [], ◌++◌, length, slice_get, slice_set, IfOk, nat_lt, if◌then◌else◌};

use crate::limits::MOST_ITEMS;
use crate::value::Value;
use std::alloc::{AllocError, Global};
use std::marker::Model;

/// At most 4,096 values, each at a place of its own, from 0.
#[derive(Drop)]
pub struct Cells {
    held: Vec<Value>,
}

impl Model for Cells {
    ghost use Rattle.std.specs.Prelude.{List, ◌≤◌, length};
    ghost use Rattle.std.specs.Vec.{vec_capacity};
    ghost use Rattle.m5_region.specs.declared.limits.TheConstants.{MOST_ITEMS};
    ghost use Rattle.m5_region.specs.declared.value.Value.{Value as Held};

    ghost Value = { List Held };

    ghost view = { λ c. c.held.items };

    ghost invariant = { λ c.
        (length c.held.items ≤ MOST_ITEMS) × (MOST_ITEMS ≤ vec_capacity c.held) };
}

impl Cells {
    /// No cells, with all their room reserved.
    pub fn make(alloc: Global) -> Result<Cells, AllocError>
        ensures { IfOk result (λ cells. cells ≡ []) }
    {
        let held = Vec::with_capacity(alloc, MOST_ITEMS)?;
        Ok(Cells { held })
    }

    /// How many cells there are.
    pub fn len(&self) -> u32
        ensures count { result ≡ length self.now }
        ensures within { result ≤ MOST_ITEMS }
    {
        self.held.len() as u32
    }

    /// Adds a cell after the others; false where there are 4,096, and then nothing changes.
    pub fn push(&mut self, item: Value) -> bool
        ensures room { result ≡ nat_lt (length self.old) MOST_ITEMS }
        ensures cells { self.new ≡ (if result then self.old ++ item ∷ [] else self.old) }
    {
        if self.held.len() == MOST_ITEMS {
            return false;
        }
        self.held.push_reserved(item);
        true
    }

    /// What the cell at a place holds, where there is one.
    pub fn get(&self, place: u32) -> Option<Value>
        ensures { result ≡ slice_get self.now place }
    {
        self.held.get(place as usize).copied()
    }

    /// Sets the cell at a place; false where there is none, and then nothing changes.
    pub fn set(&mut self, place: u32, value: Value) -> bool
        ensures there { result ≡ nat_lt place (length self.old) }
        ensures cells { self.new ≡ slice_set self.old place value }
    {
        if (place as usize) < self.held.len() {
            self.held[place as usize] = value;
            return true;
        }
        false
    }
}
