//! Types by number: a type's parts stand before it, so that types share their parts. A number without a type stands for unit.

ghost use Rattle.std.specs.Prelude.{◌≡◌, ◌<◌, [], ◌∷◌, ◌++◌, length, slice_get, IfOk, OnOk, OnErr};
ghost use Rattle.m5_terms.specs.TypeExpression.{unit};
ghost use Rattle.m5_cps.specs.TypesByNumber.{row_type, type_in};
ghost use Rattle.m5_cps.specs.code.Rows.{IsRow, IsSettledPart, IsSettled};

use m5_terms::types::World;
use std::alloc::{AllocError, Global};
use std::marker::Model;

/// A type whose parts are types by number.
#[derive(Clone, Copy)]
pub enum TypeRow {
    Unit,
    Bool,
    Int,
    Str,
    Address(World),
    Product(usize, usize),
    Sum(usize, usize),
    Function(usize, usize),
    List(usize),
    Cell(usize),
    Sham(usize),
    At(usize, World),
}

/// Types by number, from 0. The first is unit.
#[derive(Drop)]
pub struct Types {
    rows: Vec<TypeRow>,
}

impl Model for Types {
    ghost use Rattle.std.specs.Prelude.{List};
    ghost use Rattle.std.specs.Coded.{coded_list};
    ghost use Rattle.m5_terms.specs.TypeExpression.{TypeExpression, type_code};

    ghost Value = { List TypeExpression };

    ghost coded = { coded_list type_code };

    ghost use Rattle.m5_cps.specs.code.Rows.{types_of, AreTypes};

    ghost view = { λ t. types_of t.rows.items };

    ghost invariant = { λ t. AreTypes t.rows.items };
}

impl Types {
    /// Unit alone.
    pub fn new(alloc: Global) -> Result<Types, AllocError>
        ensures { IfOk result (λ t. t ≡ unit ∷ []) }
    {
        let mut rows = Vec::new(alloc);
        rows.push(TypeRow::Unit)?;
        Ok(Types { rows })
    }

    /// The number of unit.
    pub fn unit(&self) -> usize
        ensures { slice_get self.now result ≡ Some unit }
    {
        let _ = &self.rows;
        0
    }

    /// How many types there are: the number of the next one.
    pub fn count(&self) -> usize
        ensures { result ≡ length self.now }
    {
        self.rows.len()
    }

    /// Adds a type. Where memory is wanting, nothing is added.
    pub fn push(&mut self, row: TypeRow) -> Result<(), AllocError>
        ensures ok { OnOk result (self.new ≡ self.old ++ row_type self.old row ∷ []) }
        ensures err { OnErr result (self.new ≡ self.old) }
    {
        let settled = settled_row(row, self.rows.len());
        self.rows.push(settled)?;
        Ok(())
    }

    /// The same types again, in memory of their own.
    pub fn copy(&self, alloc: Global) -> Result<Types, AllocError>
        ensures { IfOk result (λ t. t ≡ self.now) }
    {
        Ok(Types {
            rows: Vec::from_slice(alloc, self.rows.as_slice())?,
        })
    }

    /// The outermost constructor of a type, with the numbers of its parts.
    pub fn row(&self, number: usize) -> TypeRow
        ensures is { row_type self.now result ≡ type_in self.now number }
        ensures parts { IsRow (length self.now) result }
    {
        if number < self.rows.len() {
            self.rows[number]
        } else {
            TypeRow::Unit
        }
    }
}

/// The number itself, or that of unit where it has no type.
fn settled_part(number: usize, count: usize) -> usize
    requires { 0 < count }
    ensures { IsSettledPart number count result }
{
    if number < count { number } else { 0 }
}

/// The same type, with parts that have types.
fn settled_row(row: TypeRow, count: usize) -> TypeRow
    requires { 0 < count }
    ensures { IsSettled row count result }
{
    match row {
        TypeRow::Product(a, b) => {
            TypeRow::Product(settled_part(a, count), settled_part(b, count))
        }
        TypeRow::Sum(a, b) => TypeRow::Sum(settled_part(a, count), settled_part(b, count)),
        TypeRow::Function(a, b) => {
            TypeRow::Function(settled_part(a, count), settled_part(b, count))
        }
        TypeRow::List(a) => TypeRow::List(settled_part(a, count)),
        TypeRow::Cell(a) => TypeRow::Cell(settled_part(a, count)),
        TypeRow::Sham(a) => TypeRow::Sham(settled_part(a, count)),
        TypeRow::At(a, world) => TypeRow::At(settled_part(a, count), world),
        other => other,
    }
}
