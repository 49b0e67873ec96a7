//! The type table while it grows.

ghost use Rattle.std.specs.Prelude.{◌≡◌, [], length, Some, slice_get, IfOk, OnOk, OnErr};
ghost use Rattle.m5_dictionary.specs.Dictionaries.{IsLine, IsTypeTable};
ghost use Rattle.m5_dict.specs.Lines.{line_of, Grows};

use crate::memory::Memory;
use crate::target::{Target, line_of};
use indexmap::IndexSet;
use m5_dictionary::line::TypeLine;
use std::alloc::Global;
use std::marker::Model;

/// Lines in the order in which they were needed, each once, found by a map.
#[derive(Drop)]
pub struct Targets {
    found: IndexSet<Target>,
}

impl Model for Targets {
    ghost use Rattle.std.specs.Prelude.{List, map};
    ghost use Rattle.m5_dictionary.specs.declared.line.TypeLine.{TypeLine as Line};
    ghost use Rattle.m5_dictionary.specs.Dictionaries.{IsTypeTable};
    ghost use Rattle.m5_dict.specs.Lines.{line_of};

    ghost Value = { List Line };

    ghost view = { λ t. map line_of t.found.keys };

    ghost invariant = { λ t. IsTypeTable (map line_of t.found.keys) };
}

impl Targets {
    /// No lines.
    pub fn make(alloc: Global) -> Targets
        ensures { result ≡ [] }
    {
        Targets {
            found: IndexSet::new(alloc),
        }
    }

    /// The id of a line, which is added where it is new.
    pub fn number(&mut self, target: Target) -> Result<u32, Memory>
        requires { IsLine (length self.old) (line_of target) }
        ensures is { IfOk result (λ id. slice_get self.new id ≡ Some (line_of target)) }
        ensures grows { OnOk result (Grows self.old self.new) }
    {
        if self.found.len() >= 0xffff_ffff {
            return Err(Memory);
        }
        match self.found.insert_full(target) {
            Ok((id, _)) => Ok(id as u32),
            Err(_) => Err(Memory),
        }
    }

    /// The lines, by id.
    pub fn lines(&self, alloc: Global) -> Result<Vec<TypeLine>, Memory>
        ensures lines { IfOk result (λ lines. lines.items ≡ self.now) }
        ensures table { IsTypeTable self.now }
    {
        let mut lines = Vec::new(alloc);
        for target in self.found.iter() {
            lines.push(line_of(*target))?;
        }
        Ok(lines)
    }
}
