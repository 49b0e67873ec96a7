//! A text that is still to be read, word by word and step by step.

ghost use Rattle.std.specs.Prelude.{◌≡◌, ◌++◌, true, false, Some, IfOk, IfErr, OnOk};
ghost use Rattle.std.specs.Fmt.{decimal};
ghost use Rattle.m5_js.specs.code.Guess.{label_in};
ghost use Rattle.m5_js.specs.code.Lines.{NoLabel};
ghost use Rattle.m5_js.specs.code.Bodies.{NoWord, NoStep, StepRead, RoomFor, step_text};

use crate::guess;
use crate::js::is_page_step;
use crate::words::{put, put_ask, put_branch, put_go, put_number, put_send, put_statement};
use m5_machine::step::Step;
use std::alloc::{AllocError, Global};

/// Why no line was read.
#[derive(Clone, Copy, PartialEq, Eq, Debug, Drop)]
pub(crate) enum LineEnd {
    Bad,
    Memory,
}

impl From<AllocError> for LineEnd {
    ghost use Rattle.std.specs.Prelude.{◌≡◌};
    ghost use Rattle.m5_js.specs.declared.input.LineEnd.TheVariants.{Memory};

    ghost from_gives = { λ _ e. e ≡ Memory };

    fn from(_error: AllocError) -> LineEnd {
        LineEnd::Memory
    }
}

/// Adds the text of a step.
fn put_step(out: &mut Vec<u8>, alloc: Global, number: u32, step: &Step) -> Result<(), AllocError>
    ensures { OnOk result (out.new.items ≡ out.old.items ++ step_text number step.now) }
{
    match step {
        Step::Fill(instruction) => put_statement(out, alloc, number, instruction),
        Step::If(slot, _) => put_branch(out, *slot),
        Step::Go(closure, value) => put_go(out, *closure, *value),
        Step::Ask(primitive, argument, next) => put_ask(out, *primitive, *argument, *next),
        Step::Send(world, closure, value) => put_send(out, *world, *closure, *value),
        Step::Done => put(out, b"return done(); "),
    }
}

/// Whether a step may stand where constants are numbered from here.
fn has_room(number: u32, step: &Step) -> bool
    ensures yes { result ≡ true → RoomFor number step.now }
    ensures no { result ≡ false → RoomFor number step.now → ⊥ }
{
    match step {
        Step::Fill(_) => number <= 65533,
        _ => true,
    }
}

/// What is still to be read.
#[derive(Clone, Copy)]
pub(crate) struct Input<'a> {
    pub(crate) rest: &'a [u8],
}

impl<'a> Input<'a> {
    /// Takes a word off, which must stand at the front.
    pub(crate) fn expect(&mut self, word: &[u8]) -> Result<(), LineEnd>
        ensures ok { OnOk result (self.old.rest.now ≡ word.now ++ self.new.rest.now) }
        ensures err { IfErr result (λ e. NoWord e word.now self.old.rest.now) }
    {
        if self.rest.len() < word.len() {
            return Err(LineEnd::Bad);
        }
        let (front, rest) = self.rest.split_at(word.len());
        if front != word {
            return Err(LineEnd::Bad);
        }
        self.rest = rest;
        Ok(())
    }

    /// Takes a step off. It is guessed, and must stand as it is printed.
    pub(crate) fn step(&mut self, alloc: Global, number: u32) -> Result<Step, LineEnd>
        ensures ok { IfOk result (λ s. StepRead number self.old.rest.now s self.new.rest.now) }
        ensures err { IfErr result (λ e. NoStep e number self.old.rest.now) }
    {
        let step = match guess::step(alloc, self.rest)? {
            Some(step) => step,
            None => return Err(LineEnd::Bad),
        };
        if !is_page_step(&step) {
            return Err(LineEnd::Bad);
        }
        if !has_room(number, &step) {
            return Err(LineEnd::Bad);
        }
        let mut text = Vec::new(alloc);
        put_step(&mut text, alloc, number, &step)?;
        self.expect(&text)?;
        Ok(step)
    }

    /// Takes a label off. It is guessed, and must stand as it is printed.
    pub(crate) fn label(&mut self, alloc: Global) -> Result<u16, LineEnd>
        ensures guess { IfOk result (λ n. label_in self.old.rest.now ≡ Some n) }
        ensures ok { IfOk result (λ n. self.old.rest.now ≡ decimal n ++ self.new.rest.now) }
        ensures err { IfErr result (λ e. NoLabel e self.old.rest.now) }
    {
        let label = match guess::label(self.rest) {
            Some(label) => label,
            None => return Err(LineEnd::Bad),
        };
        let mut text = Vec::new(alloc);
        put_number(&mut text, label as u32)?;
        self.expect(&text)?;
        Ok(label)
    }
}
