//! Closed programs, and flat ones, whose labels are few enough for two bytes: one language, with one machine.

ghost use Rattle.std.specs.Prelude.{◌≡◌, ◌≤◌, length};

use crate::table::Table;
use std::marker::Model;

/// A program whose blocks are closed: each closure takes the slots that its block uses.
#[derive(Drop)]
pub struct Closed {
    held: Table,
}

impl Model for Closed {
    ghost use Rattle.m5_flat.specs.Table.{Table};
    ghost use Rattle.m5_flat.specs.code.TableCode.{table_code};

    ghost Value = { Table };

    ghost coded = { table_code };

    ghost view = { λ c. c.held };
}

impl Closed {
    pub fn make(table: Table) -> Closed
        ensures { result ≡ table }
    {
        Closed { held: table }
    }

    pub fn table(&self) -> &Table
        ensures { result.now ≡ self.now }
    {
        &self.held
    }
}

/// A program of at most 65,535 labels.
#[derive(Drop)]
pub struct Flat {
    held: Table,
}

impl Model for Flat {
    ghost use Rattle.m5_flat.specs.Table.{Table, HasFewLabels};
    ghost use Rattle.m5_flat.specs.code.TableCode.{table_code};

    ghost Value = { Table };

    ghost coded = { table_code };

    ghost view = { λ f. f.held };

    ghost invariant = { λ f. HasFewLabels f.held };
}

impl Flat {
    pub fn make(table: Table) -> Flat
        requires { length table.labels ≤ 65535 }
        ensures { result ≡ table }
    {
        Flat { held: table }
    }

    pub fn table(&self) -> &Table
        ensures table { result.now ≡ self.now }
        ensures few { length self.now.labels ≤ 65535 }
    {
        &self.held
    }
}
