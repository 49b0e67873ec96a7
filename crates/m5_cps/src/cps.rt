//! Programs in continuation-passing style: their blocks, seen by contracts as types, steps and the places where blocks begin.

ghost use Rattle.std.specs.Prelude.{◌≡◌, ◌<◌, length};
ghost use Rattle.m5_cps.specs.Table.{IsTable, HasCode, Shows};

use crate::entry::Entry;
use crate::step::Step;
use crate::steps::Steps;
use crate::types::Types;
use std::marker::Model;

/// A block over no slots: how it is entered, and the place where it begins.
#[derive(Clone, Copy)]
pub struct Start {
    pub entry: Entry,
    pub place: usize,
}

/// The blocks of a program, typed and within the limits. Code begins where each does.
#[derive(Drop)]
pub struct Cps {
    held_types: Types,
    held_steps: Steps,
    held_functions: Vec<Start>,
    held_main: usize,
}

impl Model for Cps {
    ghost use Rattle.m5_cps.specs.Table.{Table, IsTable};
    ghost use Rattle.m5_cps.specs.code.TableCode.{table_code};

    ghost Value = { Table };

    ghost coded = { table_code };

    ghost view = { λ c. record { types = c.held_types; steps = c.held_steps; functions = c.held_functions.items; main = c.held_main } };

    ghost invariant = { λ c. IsTable (record { types = c.held_types; steps = c.held_steps; functions = c.held_functions.items; main = c.held_main }) };
}

impl Cps {
    /// The blocks that begin at these places of these steps.
    pub fn make(types: Types, steps: Steps, functions: Vec<Start>, main: usize) -> Cps
        requires { IsTable (record { types = types; steps = steps; functions = functions.items; main = main }) }
        ensures { result ≡ record { types = types; steps = steps; functions = functions.items; main = main } }
    {
        Cps {
            held_types: types,
            held_steps: steps,
            held_functions: functions,
            held_main: main,
        }
    }

    /// The types, by their numbers.
    pub fn types(&self) -> &Types
        ensures { result.now ≡ self.now.types }
    {
        &self.held_types
    }

    /// How many steps there are: each place is below.
    pub fn count(&self) -> usize
        ensures { result ≡ length self.now.steps }
    {
        self.held_steps.count()
    }

    /// All steps, by place.
    pub fn steps(&self) -> &[Step]
        ensures { result.now ≡ self.now.steps }
    {
        self.held_steps.as_slice()
    }

    /// The step at a place where code begins.
    pub fn step(&self, place: usize) -> &Step
        requires { HasCode self.now place }
        ensures there { place < length self.now.steps }
        ensures shows { Shows self.now place result.now }
    {
        self.held_steps.get(place)
    }

    /// The blocks of the declared functions, in their order.
    pub fn functions(&self) -> &[Start]
        ensures starts { result.now ≡ self.now.functions }
        ensures code { IsTable self.now }
    {
        self.held_functions.as_slice()
    }

    /// Where main's block begins.
    pub fn main(&self) -> usize
        ensures start { result ≡ self.now.main }
        ensures code { IsTable self.now }
    {
        self.held_main
    }
}
