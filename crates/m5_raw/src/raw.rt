//! Programs whose names are resolved.

ghost use Rattle.std.specs.Prelude.{◌≡◌};
ghost use Rattle.m5_raw.specs.RawTerm.{RawTerm, IsRaw};

use crate::function::Function;
use crate::node::Node;
use m5_lex::Place;
use m5_terms::listed::Listed;
use std::marker::Model;

/// A resolved program: its functions by their numbers, and its main term with the place of its `main`. It has at most
/// 16,000 nodes, those of written types among them, and only forms that a text has.
#[derive(Drop)]
pub struct Raw {
    held_functions: Listed<Function>,
    held_place: Place,
    held_main: Node,
}

impl Model for Raw {
    ghost use Rattle.m5_raw.specs.RawTerm.{RawTerm, IsRaw, raw_code};

    ghost Value = { RawTerm };

    ghost coded = { raw_code };

    ghost view = { λ r. record { functions = r.held_functions; place = r.held_place; main = r.held_main } };

    ghost invariant = { λ r. IsRaw (record { functions = r.held_functions; place = r.held_place; main = r.held_main }) };
}

impl Raw {
    pub fn make(functions: Listed<Function>, place: Place, main: Node) -> Raw
        requires { IsRaw (record { functions = functions; place = place; main = main }) }
        ensures { result ≡ record { functions = functions; place = place; main = main } }
    {
        Raw {
            held_functions: functions,
            held_place: place,
            held_main: main,
        }
    }

    /// The declared functions in their order.
    pub fn functions(&self) -> &[Function]
        ensures value { result.now ≡ self.now.functions }
        ensures limits { IsRaw self.now }
    {
        self.held_functions.as_slice()
    }

    /// The place of `main`.
    pub fn place(&self) -> Place
        ensures { result ≡ self.now.place }
    {
        self.held_place
    }

    /// What is evaluated at home.
    pub fn main(&self) -> &Node
        ensures { result.now ≡ self.now.main }
    {
        &self.held_main
    }
}
