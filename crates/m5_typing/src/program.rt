//! Typed programs.

ghost use Rattle.std.specs.Prelude.{◌≡◌};
ghost use Rattle.m5_typing.specs.Program.{ProgramTerm, IsProgram};

use crate::functions::{Function, Functions};
use m5_terms::node::Node;
use std::marker::Model;

/// A program that is typed: its functions by their declarations, and its main term as unit at home.
/// It has at most 16,000 nodes, those of written types among them, and only forms that a text has.
#[derive(Drop)]
pub struct Program {
    held_functions: Functions,
    held_main: Node,
}

impl Model for Program {
    ghost use Rattle.m5_typing.specs.Program.{ProgramTerm, IsProgram, program_code};

    ghost Value = { ProgramTerm };

    ghost coded = { program_code };

    ghost view = { λ p. record { functions = p.held_functions; main = p.held_main } };

    ghost invariant = { λ p. IsProgram (record { functions = p.held_functions; main = p.held_main }) };
}

impl Program {
    /// The program of these functions and this main term.
    pub fn make(functions: Functions, main: Node) -> Program
        requires { IsProgram (record { functions = functions; main = main }) }
        ensures { result ≡ record { functions = functions; main = main } }
    {
        Program {
            held_functions: functions,
            held_main: main,
        }
    }

    /// The declared functions in their order.
    pub fn functions(&self) -> &[Function]
        ensures value { result.now ≡ self.now.functions }
        ensures typed { IsProgram self.now }
    {
        self.held_functions.as_slice()
    }

    /// What is evaluated at home.
    pub fn main(&self) -> &Node
        ensures { result.now ≡ self.now.main }
    {
        &self.held_main
    }
}
