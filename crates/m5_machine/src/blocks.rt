//! Blocks by label, in one list of steps.

ghost use Rattle.std.specs.Prelude.{◌≡◌, ◌<◌, ◌≤◌, length, MatchOption};
ghost use Rattle.m5_machine.specs.Blocks.{HasBody, Shows, StartOf, IsFlat};

use crate::step::Step;
use std::marker::Model;

/// No block has the label, where this stands for the place at which one begins.
pub const NO_BLOCK: u32 = 0xffff_ffff;

/// Blocks by label, each a tree of instructions and endings. A block's steps stand in the order in
/// which they are written, an `If` before its two bodies.
#[derive(Drop)]
pub struct Blocks {
    starts: Vec<u32>,
    steps: Vec<Step>,
}

impl Model for Blocks {
    ghost use Rattle.m5_machine.specs.Blocks.{Flat, IsFlat};

    ghost Value = { Flat };

    ghost view = { λ c. record { starts = c.starts.items; steps = c.steps.items } };

    ghost invariant = { λ c. IsFlat (record { starts = c.starts.items; steps = c.steps.items }) };
}

impl Blocks {
    /// The blocks that begin at these places of these steps.
    pub fn of(starts: Vec<u32>, steps: Vec<Step>) -> Blocks
        requires { IsFlat (record { starts = starts.items; steps = steps.items }) }
        ensures { result ≡ record { starts = starts.items; steps = steps.items } }
    {
        Blocks { starts, steps }
    }

    /// A body begins at each step. The call does nothing.
    pub fn is_flat(&self)
        ensures { IsFlat self.now }
    {
        let _ = &self.steps;
    }

    /// Where the block of each label begins; `NO_BLOCK` where it has none.
    pub fn starts(&self) -> &[u32]
        ensures { result.now ≡ self.now.starts }
    {
        self.starts.as_slice()
    }

    /// The steps of all blocks.
    pub fn steps(&self) -> &[Step]
        ensures { result.now ≡ self.now.steps }
    {
        self.steps.as_slice()
    }

    /// The step at a place where a body begins.
    pub fn step(&self, at: u32) -> &Step
        requires { HasBody self.now at }
        ensures { Shows self.now at result.now }
    {
        &self.steps[at as usize]
    }

    /// Where the block of a label begins.
    pub fn start(&self, label: u16) -> Option<u32>
        ensures { StartOf self.now label result }
    {
        if (label as usize) < self.starts.len() {
            let start = self.starts[label as usize];
            if start != 0xffff_ffff {
                return Some(start);
            }
        }
        None
    }
}
