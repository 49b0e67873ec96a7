//! A browser's code read from its text.

ghost use Rattle.std.specs.Prelude.{◌≡◌, ◌≤◌, ◌<◌, ◌∷◌, [], ◌++◌, ℕ, List, length, IfOk, IfErr, OnOk};
ghost use Rattle.std.specs.Vec.{vec_len};
ghost use Rattle.m5_machine.specs.declared.step.Step.{Step};
ghost use Rattle.m5_machine.specs.Blocks.{Flat};
ghost use Rattle.m5_machine.specs.Labelled.{Labelled, blocks_of};
ghost use Rattle.m5_js.specs.Fault.{Spells, NoPage};
ghost use Rattle.m5_machine.specs.code.Flattened.{IsLaid};
ghost use Rattle.m5_js.specs.code.Lines.{LineRead, NoLine};
ghost use Rattle.m5_js.specs.code.Bodies.{BodyRead, NoBody};
ghost use Rattle.m5_js.specs.declared.input.LineEnd.TheVariants.{Memory};

use crate::input::{Input, LineEnd};
use crate::js::Js;
use m5_lex::place::Place;
use m5_machine::blocks::NO_BLOCK;
use m5_machine::link::link;
use m5_machine::step::Step;
use std::alloc::{AllocError, Global};

/// Why no code was read.
#[derive(Clone, Copy, PartialEq, Eq, Debug, Drop)]
pub enum JsEnd {
    /// No code has this text; the first line that is none, and column 1.
    Bad(Place),
    Memory,
}

impl From<AllocError> for JsEnd {
    ghost use Rattle.std.specs.Prelude.{◌≡◌};
    ghost use Rattle.m5_js.specs.declared.reading.JsEnd.TheVariants.{Memory};

    ghost from_gives = { λ _ e. e ≡ Memory };

    fn from(_error: AllocError) -> JsEnd {
        JsEnd::Memory
    }
}

/// How many endings may be open at once.
const MOST_OPEN: u32 = 1000;

/// Adds a step.
fn push(steps: &mut Vec<Step>, step: Step) -> Result<(), LineEnd>
    ensures ok { OnOk result (steps.new.items ≡ steps.old.items ++ step ∷ []) }
    ensures err { IfErr result (λ e. e ≡ Memory) }
{
    match steps.push(step) {
        Ok(()) => Ok(()),
        Err(_) => Err(LineEnd::Memory),
    }
}

/// Reads a body, whose constants are numbered from here, and adds its steps. With its outermost
/// ending so many are open.
fn read_body(
    input: &mut Input,
    alloc: Global,
    level: u32,
    first: u32,
    steps: &mut Vec<Step>,
) -> Result<(), LineEnd>
    requires level { level ≤ 1000 }
    requires first { first ≤ 65534 }
    ensures ok { OnOk result (BodyRead level first input.old.rest.now steps.old.items input.new.rest.now steps.new.items) }
    ensures err { IfErr result (λ e. NoBody e level first input.old.rest.now) }
{
    let mut number = first;
    loop {
        match input.step(alloc, number)? {
            Step::Fill(instruction) => {
                push(steps, Step::Fill(instruction))?;
                number += 1;
            }
            Step::If(slot, _) => {
                if level == MOST_OPEN {
                    return Err(LineEnd::Bad);
                }
                push(steps, Step::If(slot, 0))?;
                read_body(input, alloc, level + 1, number, steps)?;
                input.expect(b"} else { ")?;
                read_body(input, alloc, level + 1, number, steps)?;
                return input.expect(b"} ");
            }
            Step::Go(closure, value) => return push(steps, Step::Go(closure, value)),
            Step::Ask(primitive, argument, next) => {
                return push(steps, Step::Ask(primitive, argument, next));
            }
            Step::Send(world, closure, value) => {
                return push(steps, Step::Send(world, closure, value));
            }
            Step::Done => return push(steps, Step::Done),
        }
    }
}

/// Adds labels without a block up to a label.
fn skip_labels(starts: &mut Vec<u32>, label: usize) -> Result<(), AllocError>
    requires { vec_len starts.old ≤ label }
    ensures count { OnOk result (vec_len starts.new ≡ label) }
    ensures laid { OnOk result ((ss : List Step) (bs : List Labelled) → IsLaid starts.old.items ss bs → IsLaid starts.new.items ss bs) }
{
    while starts.len() < label {
        starts.push(NO_BLOCK)?;
    }
    Ok(())
}

/// Adds the place where a block begins.
fn add_start(starts: &mut Vec<u32>, place: usize) -> Result<(), AllocError>
    requires { place < 4294967295 }
    ensures { OnOk result (starts.new.items ≡ starts.old.items ++ place ∷ []) }
{
    starts.push(place as u32)?;
    Ok(())
}

/// Reads a line, whose label is none that was read.
fn read_line(
    input: &mut Input,
    alloc: Global,
    starts: &mut Vec<u32>,
    steps: &mut Vec<Step>,
) -> Result<(), LineEnd>
    requires { vec_len steps.old < 4294967295 }
    ensures ok { OnOk result (LineRead input.old.rest.now starts.old.items steps.old.items input.new.rest.now starts.new.items steps.new.items) }
    ensures err { IfErr result (λ e. NoLine e (length starts.old.items) input.old.rest.now) }
{
    input.expect(b"const L")?;
    let label = input.label(alloc)? as usize;
    if label < starts.len() {
        return Err(LineEnd::Bad);
    }
    input.expect(b" = (e, a) => { ")?;
    skip_labels(starts, label)?;
    add_start(starts, steps.len())?;
    read_body(input, alloc, 1, 0, steps)?;
    input.expect(b"};\n")
}

/// The code whose text this is.
pub fn read(alloc: Global, bytes: &[u8]) -> Result<Js, JsEnd>
    requires { length bytes.now < 4294967295 }
    ensures found { IfOk result (λ js. Spells js bytes.now) }
    ensures only { IfOk result (λ js. (other : Flat) → Spells other bytes.now → blocks_of other ≡ blocks_of js) }
    ensures bad { IfErr result (λ e. NoPage e bytes.now) }
{
    let mut input = Input { rest: bytes };
    let mut starts = Vec::new(alloc);
    let mut steps = Vec::new(alloc);
    let mut line: u32 = 1;
    while input.rest.len() > 0 {
        match read_line(&mut input, alloc, &mut starts, &mut steps) {
            Ok(()) => line += 1,
            Err(LineEnd::Bad) => return Err(JsEnd::Bad(Place { line, column: 1 })),
            Err(LineEnd::Memory) => return Err(JsEnd::Memory),
        }
    }
    let blocks = link(alloc, starts, steps)?.unwrap();
    blocks.is_flat();
    Ok(Js::made(blocks))
}
