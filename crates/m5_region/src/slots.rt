//! The slots of the running block.

ghost use Rattle.std.specs.Prelude.{◌≡◌, ◌<◌, ◌∷◌, [], ◌++◌, length, take, slice_get, IfOk};

use crate::limits::MOST_SLOTS;
use crate::value::Value;
use std::alloc::{AllocError, Global};
use std::marker::Model;

/// Room for 65,536 values, those of the slots that are filled, from slot 0.
#[derive(Drop)]
pub struct Slots {
    held: Vec<Value>,
}

impl Model for Slots {
    ghost use Rattle.std.specs.Prelude.{List, ◌≤◌, length};
    ghost use Rattle.std.specs.Vec.{vec_capacity};
    ghost use Rattle.m5_region.specs.declared.limits.TheConstants.{MOST_SLOTS};
    ghost use Rattle.m5_region.specs.declared.value.Value.{Value as Held};

    ghost Value = { List Held };

    ghost view = { λ s. s.held.items };

    ghost invariant = { λ s. MOST_SLOTS ≤ vec_capacity s.held };
}

impl Slots {
    /// No slots filled, with all their room reserved.
    pub fn make(alloc: Global) -> Result<Slots, AllocError>
        ensures { IfOk result (λ slots. slots ≡ []) }
    {
        let held = Vec::with_capacity(alloc, MOST_SLOTS)?;
        Ok(Slots { held })
    }

    /// Fills the next slot.
    pub fn push(&mut self, item: Value)
        requires { length self.old < MOST_SLOTS }
        ensures { self.new ≡ self.old ++ item ∷ [] }
    {
        self.held.push_reserved(item);
    }

    /// What a slot holds, where it is filled.
    pub fn get(&self, slot: u32) -> Option<Value>
        ensures { result ≡ slice_get self.now slot }
    {
        self.held.get(slot as usize).copied()
    }

    /// Keeps the first slots.
    pub fn cut(&mut self, count: u32)
        ensures { self.new ≡ take count self.old }
    {
        self.held.truncate(count as usize);
    }
}
