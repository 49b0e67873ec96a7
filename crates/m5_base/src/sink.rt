//! Where bytes go: the trait, and a sink over memory that takes pieces and fails at chosen calls.

ghost use Rattle.std.specs.Prelude.{◌≡◌, ◌↔◌, ◌⊎◌, ◌+◌, ◌-◌, ◌^◌, ◌≤◌, ◌<◌, ◌++◌, ℕ, List, [], length, take, min, IfOk, OnOk, OnErr, IsErr, MatchResult, Contains, Some};
ghost use Rattle.std.specs.Io.{WritesAtMost};
ghost use Rattle.std.specs.Io.KnownBytes.{WriteAppends};
ghost use Rattle.std.specs.declared.option.Option.{Option};
ghost use Rattle.m5_base.specs.Causes.{HasCause};
ghost use Rattle.m5_base.specs.Held.{next_call};

use std::alloc::{AllocError, Global};
use std::marker::Model;

/// A write did not come about.
#[derive(Clone, Copy, Debug, PartialEq, Eq)]
pub struct SinkFailed;

/// Where bytes go. `held` is what the sink has taken, where it tells it, and `faults` counts its own failures
/// and never falls.
pub trait Sink {
    ghost held: { Self → Option (List ℕ) };

    ghost faults: { Self → ℕ };

    /// Takes the first bytes, at least one where there is one; a failure takes none.
    fn write(&mut self, from: &[u8]) -> Result<usize, SinkFailed>
        ensures bound { WritesAtMost result from.now }
        ensures some { 0 < length from.now → IfOk result (λ n. 0 < n) }
        ensures bytes { WriteAppends (held self.old) (held self.new) result from.now }
        ensures cause { HasCause (faults self.old) (faults self.new) result };
}

/// A sink over memory with room for so many bytes: at most `piece` bytes a write, and a failure where there are
/// bytes to take and no room, and at each call whose number, counted from 1, is among `fails`.
#[derive(Drop)]
pub struct MemSink {
    taken: Vec<u8>,
    room: usize,
    piece: usize,
    fails: Vec<u64>,
    calls: u64,
    faults: u64,
}

impl Model for MemSink {
    ghost use Rattle.std.specs.Prelude.{◌≤◌, ◌<◌, vec_len, vec_capacity};
    ghost use Rattle.m5_base.specs.Held.{Store};

    ghost Value = { Store };

    ghost view = { λ s. record {
      taken = s.taken.items;
      room = s.room;
      piece = s.piece;
      fails = s.fails.items;
      calls = s.calls;
      faults = s.faults;
    } };

    ghost invariant = { λ s. (vec_len s.taken ≤ s.room) × (s.room ≤ vec_capacity s.taken) × (0 < s.piece) };
}

impl MemSink {
    /// An empty sink, whose room is reserved. Want of memory is the only error.
    pub fn new(
        alloc: Global,
        room: usize,
        piece: usize,
        fails: &[u64],
    ) -> Result<MemSink, AllocError>
        requires { 0 < piece }
        ensures { IfOk result (λ s. s ≡ record { taken = []; room = room; piece = piece; fails = fails.now; calls = 0; faults = 0 }) }
    {
        Ok(MemSink {
            taken: Vec::with_capacity(alloc, room)?,
            room,
            piece,
            fails: Vec::from_slice(alloc, fails)?,
            calls: 0,
            faults: 0,
        })
    }

    /// The bytes taken so far.
    pub fn held(&self) -> &[u8]
        ensures { result.now ≡ self.now.taken }
    {
        self.taken.as_slice()
    }

    fn fail(&mut self) -> SinkFailed
        ensures { self.new ≡ record self.old { faults = min (self.old.faults + 1) (2 ^ 64 - 1) } }
    {
        self.faults = self.faults.saturating_add(1);
        SinkFailed
    }
}

impl Sink for MemSink {
    ghost held = { λ s. Some s.taken };

    ghost faults = { λ s. s.faults };

    fn write(&mut self, from: &[u8]) -> Result<usize, SinkFailed>
        ensures bound { WritesAtMost result from.now }
        ensures some { 0 < length from.now → IfOk result (λ n. 0 < n) }
        ensures bytes { WriteAppends (Some self.old.taken) (Some self.new.taken) result from.now }
        ensures cause { HasCause self.old.faults self.new.faults result }

        // A failure comes exactly at the calls with the chosen numbers, and where bytes meet no room.
        ensures fails { (IsErr result) ↔ ((Contains self.old.fails (next_call self.old.calls))
            ⊎ ((0 < length from.now) × (self.old.room ≤ length self.old.taken))) }
        ensures calls { self.new.calls ≡ next_call self.old.calls }
        // The count of faults rises with a failure alone.
        ensures faults { MatchResult result (λ _. self.new.faults ≡ self.old.faults) (λ _. self.new.faults ≡ next_call self.old.faults) }
        ensures same { (self.new.fails ≡ self.old.fails) × (self.new.piece ≡ self.old.piece) × (self.new.room ≡ self.old.room) }
        ensures piece { IfOk result (λ n. n ≡ min self.old.piece (min (length from.now) (self.old.room - length self.old.taken))) }
    {
        self.calls = self.calls.saturating_add(1);
        if self.fails.contains(&self.calls) {
            return Err(self.fail());
        }
        let count = self.piece.min(from.len()).min(self.room - self.taken.len());
        if count == 0 && !from.is_empty() {
            return Err(self.fail());
        }
        match self.taken.extend_from_slice(&from[..count]) {
            Ok(()) => Ok(count),
            Err(_) => unreachable!(),
        }
    }
}
