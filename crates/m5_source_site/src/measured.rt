//! A typed program with its width.

ghost use Rattle.std.specs.Prelude.{◌≡◌, ◌+◌, ◌<◌, ◌^◌, slice_get, MatchOption, None, Some};
ghost use Rattle.m5_meaning.specs.Step.{step_weight};
ghost use Rattle.m5_source_site.specs.ClosedSite.{IsClosedProgram};

use crate::laws::typed_program_is_closed_holds;
use m5_terms::node::Node;
use m5_typing::functions::Function;
use m5_typing::program::Program;
use m5_typing::width::width;
use std::marker::Model;

/// A program without free variables, whose width has been found once.
#[derive(Drop)]
pub struct MeasuredProgram<'a> {
    program: &'a Program,
    held_width: u32,
}

impl<'a> Model for MeasuredProgram<'a> {
    ghost use Rattle.std.specs.Prelude.{◌≡◌};
    ghost use Rattle.m5_typing.specs.Program.{ProgramTerm, program_code};
    ghost use Rattle.m5_typing.specs.Width.{program_width};
    ghost use Rattle.m5_source_site.specs.ClosedSite.{IsClosedProgram};

    ghost Value = { ProgramTerm };

    ghost coded = { program_code };

    ghost view = { λ r. r.program.now };

    ghost invariant = { λ r. (r.held_width ≡ program_width r.program.now) × IsClosedProgram r.program.now };
}

impl<'a> MeasuredProgram<'a> {
    pub fn of(program: &'a Program) -> MeasuredProgram<'a>
        ensures { result ≡ program.now }
    {
        typed_program_is_closed_holds();
        let _functions = program.functions();
        MeasuredProgram {
            program,
            held_width: width(program),
        }
    }
}

impl MeasuredProgram<'_> {
    /// No function's body has a free variable but its parameter, and the main term has none.
    pub fn closed_holds(&self)
        ensures { IsClosedProgram self.now }
    {
        let _ = &self.held_width;
    }

    /// What a step weighs that makes so many bytes of text.
    pub fn step_weight(&self, made: u64) -> u64
        requires { made < 2 ^ 63 }
        ensures value { result ≡ step_weight self.now made }
        ensures bound { result < 2 ^ 63 + 2 ^ 32 + 1 }
    {
        1 + (self.held_width as u64 + made)
    }

    /// The declared function of this number, if there is one.
    pub fn function(&self, number: u32) -> Option<&Function>
        ensures { MatchOption result (slice_get self.now.functions number ≡ None) (λ f. slice_get self.now.functions number ≡ Some f.now) }
    {
        self.program.functions().get(number as usize)
    }

    /// What each home begins with.
    pub fn main(&self) -> &Node
        ensures { result.now ≡ self.now.main }
    {
        self.program.main()
    }
}
