//! Where bytes come from: the trait, and a source over memory that gives pieces and fails at chosen calls.

ghost use Rattle.std.specs.Prelude.{◌≡◌, ◌↔◌, ◌+◌, ◌-◌, ◌^◌, ◌≤◌, ◌<◌, ℕ, List, length, take, drop, min, IfOk, OnOk, OnErr, IsErr, MatchResult, Contains, Some};
ghost use Rattle.std.specs.Io.{ReadsAtMost};
ghost use Rattle.std.specs.Io.KnownBytes.{ReadConsumes};
ghost use Rattle.std.specs.declared.option.Option.{Option};
ghost use Rattle.m5_base.specs.Causes.{HasCause};
ghost use Rattle.m5_base.specs.Held.{next_call};

use std::alloc::{AllocError, Global};
use std::marker::Model;

/// A read did not come about.
#[derive(Clone, Copy, Debug, PartialEq, Eq)]
pub struct SourceFailed;

/// Where bytes come from. `left` is what reads will give, where the source tells it, and `faults` counts its
/// own failures and never falls.
pub trait Source {
    ghost left: { Self → Option (List ℕ) };

    ghost faults: { Self → ℕ };

    /// Gives the next bytes, at most as many as fit; none for a slice with room is the end.
    fn read(&mut self, into: &mut [u8]) -> Result<usize, SourceFailed>
        ensures bound { ReadsAtMost result into.new }
        ensures bytes { ReadConsumes (left self.old) (left self.new) result into.new }
        ensures cause { HasCause (faults self.old) (faults self.new) result };
}

/// A source over memory: at most `piece` bytes a read, and a failure at each call whose number, counted from 1,
/// is among `fails`.
#[derive(Drop)]
pub struct MemSource {
    bytes: Vec<u8>,
    position: usize,
    piece: usize,
    fails: Vec<u64>,
    calls: u64,
    faults: u64,
}

impl Model for MemSource {
    ghost use Rattle.std.specs.Prelude.{◌≤◌, ◌<◌, vec_len, drop};
    ghost use Rattle.m5_base.specs.Held.{Supply};

    ghost Value = { Supply };

    ghost view = { λ s. record {
      left = drop s.position s.bytes.items;
      piece = s.piece;
      fails = s.fails.items;
      calls = s.calls;
      faults = s.faults;
    } };

    ghost invariant = { λ s. (s.position ≤ vec_len s.bytes) × (0 < s.piece) × (s.faults ≤ s.calls) };
}

impl MemSource {
    /// A source of these bytes; it keeps copies of both lists. Want of memory is the only error.
    pub fn new(
        alloc: Global,
        bytes: &[u8],
        piece: usize,
        fails: &[u64],
    ) -> Result<MemSource, AllocError>
        requires { 0 < piece }
        ensures { IfOk result (λ s. s ≡ record { left = bytes.now; piece = piece; fails = fails.now; calls = 0; faults = 0 }) }
    {
        Ok(MemSource {
            bytes: Vec::from_slice(alloc, bytes)?,
            position: 0,
            piece,
            fails: Vec::from_slice(alloc, fails)?,
            calls: 0,
            faults: 0,
        })
    }
}

impl Source for MemSource {
    ghost left = { λ s. Some s.left };

    ghost faults = { λ s. s.faults };

    fn read(&mut self, into: &mut [u8]) -> Result<usize, SourceFailed>
        ensures bound { ReadsAtMost result into.new }
        ensures bytes { ReadConsumes (Some self.old.left) (Some self.new.left) result into.new }
        ensures cause { HasCause self.old.faults self.new.faults result }

        // A failure comes exactly at the calls with the chosen numbers.
        ensures fails { (IsErr result) ↔ (Contains self.old.fails (next_call self.old.calls)) }
        ensures calls { self.new.calls ≡ next_call self.old.calls }
        // The count of faults rises with a failure alone.
        ensures faults { MatchResult result (λ _. self.new.faults ≡ self.old.faults) (λ _. self.new.faults ≡ next_call self.old.faults) }
        ensures same { (self.new.fails ≡ self.old.fails) × (self.new.piece ≡ self.old.piece) }
        ensures piece { IfOk result (λ n. n ≡ min self.old.piece (min (length into.old) (length self.old.left))) }
    {
        self.calls = self.calls.saturating_add(1);
        if self.fails.contains(&self.calls) {
            self.faults = self.faults.saturating_add(1);
            return Err(SourceFailed);
        }
        let count = copy_front(self.piece, self.bytes.split_at(self.position).1, into);
        self.position += count;
        Ok(count)
    }
}

/// Copies as many bytes as fit, at most `piece`, from the front of one slice to the front of the other.
fn copy_front(piece: usize, from: &[u8], into: &mut [u8]) -> usize
    ensures count { result ≡ min piece (min (length into.old) (length from.now)) }
    ensures copied { take result into.new ≡ take result from.now }
    ensures same { length into.new ≡ length into.old }
{
    let count = piece.min(into.len()).min(from.len());
    into[..count].copy_from_slice(&from[..count]);
    count
}
