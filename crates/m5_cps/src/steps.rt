//! The steps of a program's blocks while they are written: a step is added at the end, and one that names places to come is
//! written again.

ghost use Rattle.std.specs.Prelude.{◌≡◌, ◌<◌, [], ◌∷◌, ◌++◌, length, slice_get, slice_set, Some, OnOk, OnErr};

use crate::step::Step;
use std::alloc::{AllocError, Global};
use std::marker::Model;

/// Steps by place, from 0.
#[derive(Drop)]
pub struct Steps {
    held: Vec<Step>,
}

impl Model for Steps {
    ghost use Rattle.std.specs.Prelude.{List};
    ghost use Rattle.m5_cps.specs.declared.step.Step.{Step};

    ghost Value = { List Step };

    ghost view = { λ s. s.held.items };
}

impl Steps {
    /// No steps yet.
    pub fn new(alloc: Global) -> Steps
        ensures { result ≡ [] }
    {
        Steps {
            held: Vec::new(alloc),
        }
    }

    /// How many steps there are: the place of the next one.
    pub fn count(&self) -> usize
        ensures { result ≡ length self.now }
    {
        self.held.len()
    }

    pub fn as_slice(&self) -> &[Step]
        ensures { result.now ≡ self.now }
    {
        self.held.as_slice()
    }

    /// The step at a place.
    pub fn get(&self, place: usize) -> &Step
        requires { place < length self.now }
        ensures { slice_get self.now place ≡ Some result.now }
    {
        &self.held[place]
    }

    /// Adds a step at the end. Where memory is wanting, the steps stay as they were.
    pub fn push(&mut self, step: Step) -> Result<(), AllocError>
        ensures ok { OnOk result (self.new ≡ self.old ++ step ∷ []) }
        ensures err { OnErr result (self.new ≡ self.old) }
    {
        self.held.push(step)?;
        Ok(())
    }

    /// Writes the step at a place again.
    pub fn set(&mut self, place: usize, step: Step)
        requires { place < length self.old }
        ensures { self.new ≡ slice_set self.old place step }
    {
        self.held[place] = step;
    }
}
