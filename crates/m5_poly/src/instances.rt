//! The instances of generic declarations.

ghost use Rattle.std.specs.Prelude.{◌≡◌, ◌<◌, ◌^◌, [], ◌∷◌, ◌++◌, false, length, slice_get, OnOk};
ghost use Rattle.std.specs.Option.{option_map};
ghost use Rattle.std.specs.List.{list_any, position_or_len};
ghost use Rattle.std.specs.Str.{bytes_eq};
ghost use Rattle.m5_poly.specs.Expansion.{number_of};
ghost use Rattle.m5_poly.specs.Walk.{Made as MadeAs};
ghost use Rattle.m5_poly.specs.code.Made.{made_from, is_of};

use crate::codes::Codes;
use indexmap::IndexMap;
use std::alloc::{AllocError, Global};
use std::marker::Model;

/// An instance: of the generic declaration with this number, from 0, at these arguments.
#[derive(Drop)]
pub(crate) struct Instance {
    pub(crate) generic: usize,
    pub(crate) arguments: Vec<Codes>,
}

/// Instances in the order in which they were made, each found by its name and its arguments.
#[derive(Drop)]
pub(crate) struct Instances {
    made: IndexMap<Vec<u8>, Instance>,
}

impl Model for Instances {
    ghost use Rattle.std.specs.Prelude.{List};
    ghost use Rattle.m5_poly.specs.Walk.{Made};
    ghost use Rattle.m5_poly.specs.code.Made.{made_of};

    ghost Value = { List Made };

    ghost view = { λ m. made_of m.made.entries };
}

impl Instances {
    pub(crate) fn make(alloc: Global) -> Instances
        ensures { result ≡ [] }
    {
        Instances {
            made: IndexMap::new(alloc),
        }
    }

    pub(crate) fn count(&self) -> usize
        ensures { result ≡ length self.now }
    {
        self.made.len()
    }

    /// Whether an instance has this key.
    pub(crate) fn has(&self, key: &[u8]) -> bool
        ensures { result ≡ list_any (λ (m : MadeAs). bytes_eq key.now m.key) self.now }
    {
        self.made.contains_key(key)
    }

    /// Adds an instance of a new key behind the others.
    pub(crate) fn add(&mut self, key: Vec<u8>, instance: Instance) -> Result<(), AllocError>
        requires { list_any (λ (m : MadeAs). bytes_eq key.items m.key) self.old ≡ false }
        ensures { OnOk result (self.new ≡ self.old ++ made_from key.items instance ∷ []) }
    {
        self.made.insert(key, instance)?;
        Ok(())
    }

    /// The key of an instance, and the instance.
    pub(crate) fn at(&self, index: usize) -> Option<(&Vec<u8>, &Instance)>
        ensures { option_map (λ e. made_from e.0.now.items e.1.now) result ≡ slice_get self.now index }
    {
        self.made.get_index(index)
    }

    /// Whether an instance is one of the generic declaration with this number.
    fn is_of(&self, index: usize, generic: usize) -> bool
        ensures { result ≡ is_of generic (slice_get self.now index) }
    {
        match self.made.get_index(index) {
            Some((_, instance)) => instance.generic == generic,
            None => false,
        }
    }

    /// The place of the instance with this key, or how many there are.
    fn place_of(&self, key: &[u8]) -> usize
        ensures place { result ≡ position_or_len (λ (m : MadeAs). bytes_eq key.now m.key) self.now }
        ensures small { result < 2 ^ 63 }
    {
        let count = self.made.len();
        match self.made.get_index_of(key) {
            Some(place) => place,
            None => count,
        }
    }

    /// The number of an instance: one more than how many of its declaration's stand before it.
    pub(crate) fn number_of(&self, generic: usize, key: &[u8]) -> usize
        ensures { result ≡ number_of self.now generic key.now }
    {
        let mut number = 1;
        for index in 0..self.place_of(key) {
            if self.is_of(index, generic) {
                number += 1;
            }
        }
        number
    }
}
