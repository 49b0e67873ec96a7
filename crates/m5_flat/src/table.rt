//! Blocks in one table by label: their types, their steps, and the places where they begin.

ghost use Rattle.std.specs.Prelude.{◌≡◌, ◌<◌, length, IfOk};
ghost use Rattle.m5_flat.specs.Table.{IsTable, HasCode, Shows};

use crate::copying::{labels, steps};
use crate::label::{Label, Named};
use crate::step::Step;
use m5_cps::types::Types;
use m5_terms::listed::Listed;
use std::alloc::{AllocError, Global};
use std::marker::Model;

/// The blocks of a program by label, typed and within the limits. Code begins where each does.
#[derive(Drop)]
pub struct Table {
    held_types: Types,
    held_steps: Listed<Step>,
    held_labels: Listed<Label>,
    held_primitives: Listed<Named>,
    held_main: usize,
    held_finish: usize,
}

impl Model for Table {
    ghost use Rattle.m5_flat.specs.Table.{Table, IsTable};
    ghost use Rattle.m5_flat.specs.code.TableCode.{table_code};

    ghost Value = { Table };

    ghost coded = { table_code };

    ghost view = { λ t. record { types = t.held_types; steps = t.held_steps; labels = t.held_labels; primitives = t.held_primitives; main = t.held_main; finish = t.held_finish } };

    ghost invariant = { λ t. IsTable (record { types = t.held_types; steps = t.held_steps; labels = t.held_labels; primitives = t.held_primitives; main = t.held_main; finish = t.held_finish }) };
}

/// The labels of the block that begins main, and of the one that ends a thread.
#[derive(Clone, Copy)]
pub struct Ends {
    pub main: usize,
    pub finish: usize,
}

impl Table {
    /// The blocks of these labels, which begin at places of these steps.
    pub fn make(
        types: Types,
        steps: Listed<Step>,
        labels: Listed<Label>,
        primitives: Listed<Named>,
        ends: Ends,
    ) -> Table
        requires { IsTable (record { types = types; steps = steps; labels = labels; primitives = primitives; main = ends.main; finish = ends.finish }) }
        ensures { result ≡ record { types = types; steps = steps; labels = labels; primitives = primitives; main = ends.main; finish = ends.finish } }
    {
        Table {
            held_types: types,
            held_steps: steps,
            held_labels: labels,
            held_primitives: primitives,
            held_main: ends.main,
            held_finish: ends.finish,
        }
    }

    /// The types, by their numbers.
    pub fn types(&self) -> &Types
        ensures { result.now ≡ self.now.types }
    {
        &self.held_types
    }

    /// How many steps there are: each place is below.
    pub fn count(&self) -> usize
        ensures { result ≡ length self.now.steps }
    {
        self.held_steps.as_slice().len()
    }

    /// The steps, by their places. Code does not begin at each.
    pub fn steps(&self) -> &[Step]
        ensures { result.now ≡ self.now.steps }
    {
        self.held_steps.as_slice()
    }

    /// The step at a place where code begins.
    pub fn step(&self, place: usize) -> &Step
        requires { HasCode self.now place }
        ensures there { place < length self.now.steps }
        ensures shows { Shows self.now place result.now }
    {
        self.held_steps.at(place as u64)
    }

    /// The labels of blocks, by their numbers.
    pub fn labels(&self) -> &[Label]
        ensures labels { result.now ≡ self.now.labels }
        ensures code { IsTable self.now }
    {
        self.held_labels.as_slice()
    }

    /// The labels of primitives.
    pub fn primitives(&self) -> &[Named]
        ensures { result.now ≡ self.now.primitives }
    {
        self.held_primitives.as_slice()
    }

    /// The label of the block that begins main.
    pub fn main(&self) -> usize
        ensures { result ≡ self.now.main }
    {
        self.held_main
    }

    /// The label of the block that ends a thread.
    pub fn finish(&self) -> usize
        ensures { result ≡ self.now.finish }
    {
        self.held_finish
    }

    /// The same blocks again, in memory of their own.
    pub fn copy(&self, alloc: Global) -> Result<Table, AllocError>
        ensures { IfOk result (λ t. t ≡ self.now) }
    {
        Ok(Table {
            held_types: self.held_types.copy(alloc)?,
            held_steps: steps(alloc, self.held_steps.as_slice())?,
            held_labels: labels(alloc, self.held_labels.as_slice())?,
            held_primitives: self.held_primitives.copy(alloc)?,
            held_main: self.held_main,
            held_finish: self.held_finish,
        })
    }
}
