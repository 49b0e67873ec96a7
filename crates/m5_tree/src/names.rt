//! The names of a program, each with a number.

ghost use Rattle.std.specs.Prelude.{◌≡◌, [], length, map, slice_get, IfOk, OnOk};
ghost use Rattle.std.specs.Option.{option_map};
ghost use Rattle.std.specs.BTreeMap.{get};
ghost use Rattle.std.specs.Global.{Vec as VecOf};
ghost use Rattle.m5_tree.specs.Names.{noted, number_of};
ghost use Rattle.m5_tree.specs.code.Named.{Numbers};

use std::alloc::{AllocError, Global};
use std::collections::BTreeMap;
use std::marker::Model;

/// Different names in the order of their first occurrence; a name's number is its place, from 0.
/// An ordered map finds a name: no choice of names makes it slow, as names with equal hashes would.
#[derive(Drop)]
pub struct Names {
    names: Vec<Vec<u8>>,
    numbers: BTreeMap<Vec<u8>, usize>,
    ghost numbered: { Numbers numbers names.items },
}

impl Model for Names {
    ghost use Rattle.std.specs.Prelude.{List, ℕ, map};

    ghost Value = { List (List ℕ) };

    ghost view = { λ n. map (λ v. v.items) n.names.items };
}

impl Names {
    /// No names.
    pub fn new(alloc: Global) -> Names
        ensures { result ≡ [] }
    {
        Names {
            names: Vec::new(alloc),
            numbers: BTreeMap::new(alloc),
        }
    }

    /// The number of a name, which is noted where it is new.
    pub fn number(&mut self, alloc: Global, name: &[u8]) -> Result<usize, AllocError>
        ensures number { IfOk result (λ n. n ≡ number_of self.old name.now) }
        ensures noted { OnOk result (self.new ≡ noted self.old name.now) }
    {
        let key = Vec::from_slice(alloc, name)?;
        match self.numbers.get(&key) {
            Some(number) => return Ok(*number),
            None => {}
        }
        let number = self.count();
        self.names.push(Vec::from_slice(alloc, name)?)?;
        match self.numbers.insert(key, number) {
            Ok(_) => Ok(number),
            Err(error) => {
                self.names.pop();
                Err(error.into())
            }
        }
    }

    /// How many names there are.
    pub fn count(&self) -> usize
        ensures { result ≡ length self.now }
    {
        self.names.len()
    }

    /// The name of a number.
    pub fn get(&self, number: usize) -> Option<&[u8]>
        ensures { option_map (λ x. x.now) result ≡ slice_get self.now number }
    {
        match self.names.get(number) {
            Some(name) => Some(name.as_slice()),
            None => None,
        }
    }
}
