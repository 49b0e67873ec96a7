//! Tables of what names or numbers mean, and the entries that a form's binders hide inside it.

ghost use Rattle.std.specs.Prelude.{◌≡◌, ◌<◌, [], length, IfOk, OnOk};
ghost use Rattle.std.specs.Option.{option_map};
ghost use Rattle.m5_terms.specs.Table.{entries, put, entered, restored};

use std::alloc::{AllocError, Global};
use std::marker::Model;
use std::mem;

/// An entry for each number, where there is one. It grows at need.
#[derive(Drop)]
pub struct Table<T> {
    held: Vec<Option<T>>,
}

impl<T> Model for Table<T> {
    ghost use Rattle.std.specs.Prelude.{List, Option};

    ghost Value = { List (Option T) };

    ghost view = { λ t. t.held.items };
}

/// The numbers that a form binds in one of its parts, each with its entry there. Of two equal
/// numbers the first counts.
#[derive(Drop)]
pub enum Binding<T> {
    Nothing,
    One(usize, T),
    Two(usize, T, usize, T),
}

/// The entries that a form's binders hide in one of its parts.
#[derive(Drop)]
pub enum Hidden<T> {
    Nothing,
    One(usize, Option<T>),
    Two(usize, Option<T>, usize, Option<T>),
}

impl<T> Table<T> {
    /// A table without entries.
    pub fn make(alloc: Global) -> Table<T>
        ensures { result ≡ [] }
    {
        Table {
            held: Vec::new(alloc),
        }
    }

    /// The entry of a number.
    pub fn get(&self, number: usize) -> Option<&T>
        ensures { option_map (λ e. e.now) result ≡ entries self.now number }
    {
        match self.held.get(number) {
            Some(Some(entry)) => Some(entry),
            _ => None,
        }
    }
}

impl<T: Drop> Table<T> {
    /// Makes room for a number's entry. What is bound stays the same.
    fn grow(&mut self, number: usize) -> Result<(), AllocError>
        ensures entries { OnOk result (entries self.new ≡ entries self.old) }
        ensures room { OnOk result (number < length self.new) }
    {
        while self.held.len() <= number {
            self.held.push(None)?;
        }
        Ok(())
    }

    /// Gives a number another entry, and answers the one before.
    pub fn replace(&mut self, number: usize, entry: Option<T>) -> Result<Option<T>, AllocError>
        ensures entries { OnOk result (entries self.new ≡ put number entry (entries self.old)) }
        ensures was { IfOk result (λ e. e ≡ entries self.old number) }
    {
        self.grow(number)?;
        Ok(mem::replace(&mut self.held[number], entry))
    }

    /// Binds the numbers of a form, and answers the entries that they hide.
    pub fn enter(&mut self, binding: Binding<T>) -> Result<Hidden<T>, AllocError>
        ensures entries { OnOk result (entries self.new ≡ entered binding (entries self.old)) }
        ensures before { IfOk result (λ h. restored h (entries self.new) ≡ entries self.old) }
    {
        match binding {
            Binding::Nothing => Ok(Hidden::Nothing),
            Binding::One(number, entry) => {
                let was = self.replace(number, Some(entry))?;
                Ok(Hidden::One(number, was))
            }
            Binding::Two(number, entry, other, outer) => {
                let second = self.replace(other, Some(outer))?;
                let first = self.replace(number, Some(entry))?;
                Ok(Hidden::Two(number, first, other, second))
            }
        }
    }

    /// Puts back the entries that a form's binders hid.
    pub fn leave(&mut self, hidden: Hidden<T>) -> Result<(), AllocError>
        ensures { OnOk result (entries self.new ≡ restored hidden (entries self.old)) }
    {
        match hidden {
            Hidden::Nothing => {}
            Hidden::One(number, entry) => {
                self.replace(number, entry)?;
            }
            Hidden::Two(number, first, other, second) => {
                self.replace(number, first)?;
                self.replace(other, second)?;
            }
        }
        Ok(())
    }
}
