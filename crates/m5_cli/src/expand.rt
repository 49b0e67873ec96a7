//! What `expand` owes: the program text with its generic declarations written out, if that is accepted.

ghost use Rattle.std.specs.Prelude.{◌≡◌, ◌≢◌, ◌≤◌, ◌++◌, length, IfOk, Ok};
ghost use Rattle.m5_lex.specs.Lexed.{lexed};
ghost use Rattle.m5_lex.specs.Shown.{LexesBack, shown, tokens_of};
ghost use Rattle.m5_cli.specs.Due.{Due};
ghost use Rattle.m5_cli.specs.Expanding.{Expands, end_line, from_divider, poly_line};
ghost use Rattle.m5_cli.specs.Input.{parts_of};
ghost use Rattle.m5_cli.specs.Taken.{input_limit};
ghost use Rattle.m5_cli.specs.declared.words.Job.TheVariants as job;

use crate::answer::Answer;
use crate::input::split;
use crate::refusal::{fault_status, put_place, refusal_text};
use crate::status::Status;
use m5_front::program::read_tokens;
use m5_front::refusal::{Fault, FrontEnd, Refusal};
use m5_lex::{LexEnd, Place, Tokens, lex, show};
use m5_poly::end::PolyEnd;
use m5_poly::expand::expand;
use m5_terms::text::Text;
use std::alloc::{AllocError, Global};

/// The line of a kind and a place.
fn poly_text(alloc: Global, kind: &[u8], place: Place) -> Result<Text, AllocError>
    ensures { IfOk result (λ text. text ≡ poly_line kind.now place) }
{
    let mut out = Vec::new(alloc);
    out.extend_from_slice(b"refused ")?;
    out.extend_from_slice(kind)?;
    out.push(b' ')?;
    put_place(alloc, &mut out, place)?;
    out.push(b'\n')?;
    Text::of(alloc, out.as_slice())
}

/// The line of a refused expansion.
fn end_text(alloc: Global, end: PolyEnd) -> Result<Text, AllocError>
    ensures line { IfOk result (λ text. text ≡ end_line end) }
    ensures some { IfOk result (λ _. end ≢ PolyEnd.Memory) }
{
    match end {
        PolyEnd::Memory => Err(AllocError),
        PolyEnd::Generic(place) => poly_text(alloc, b"Generic", place),
        PolyEnd::Repeated(place) => poly_text(alloc, b"Repeated", place),
        PolyEnd::Instance(place) => poly_text(alloc, b"Instance", place),
        PolyEnd::Instances(place) => poly_text(alloc, b"Instances", place),
        PolyEnd::Long(place) => poly_text(alloc, b"Long", place),
    }
}

/// The expanded text, which lexes to the same tokens, and the input from its dividing line on.
fn written(alloc: Global, out: &Tokens, rest: &[u8]) -> Result<Text, AllocError>
    ensures text { IfOk result (λ text. text ≡ shown (tokens_of out.now.tokens) ++ rest.now) }
    ensures again { IfOk result (λ _. LexesBack (shown (tokens_of out.now.tokens)) (tokens_of out.now.tokens)) }
{
    let program = show(alloc, out)?;
    let mut text = program.into_bytes();
    text.extend_from_slice(rest)?;
    Text::of(alloc, text.as_slice())
}

/// What is due for an expansion.
fn checked(alloc: Global, input: &[u8], out: &Tokens, rest: &[u8]) -> Result<Answer, AllocError>
    requires short { length input.now ≤ input_limit }
    requires expands { Expands input.now out.now }
    requires rest { rest.now ≡ from_divider input.now }
    ensures { IfOk result (λ answer. Due answer.status job.Expand input.now answer.text) }
{
    match read_tokens(alloc, out) {
        Ok(_accepted) => Ok(Answer {
            status: Status::Rest,
            text: written(alloc, out, rest)?,
        }),
        Err(FrontEnd::Refused(refusal)) => Ok(Answer {
            status: fault_status(refusal.fault),
            text: refusal_text(alloc, refusal)?,
        }),
        Err(FrontEnd::Memory) => Err(AllocError),
    }
}

/// What is due for the tokens of a program text.
fn tokens_due(
    alloc: Global,
    input: &[u8],
    tokens: &Tokens,
    rest: &[u8],
) -> Result<Answer, AllocError>
    requires short { length input.now ≤ input_limit }
    requires lexed { lexed (parts_of input.now).program ≡ Ok tokens.now }
    requires rest { rest.now ≡ from_divider input.now }
    ensures { IfOk result (λ answer. Due answer.status job.Expand input.now answer.text) }
{
    match expand(alloc, tokens) {
        Ok(out) => checked(alloc, input, &out, rest),
        Err(end) => Ok(Answer {
            status: Status::BadTypes,
            text: end_text(alloc, end)?,
        }),
    }
}

/// What `expand` owes for an input.
pub(crate) fn expanded(alloc: Global, input: &[u8]) -> Result<Answer, AllocError>
    requires { length input.now ≤ input_limit }
    ensures { IfOk result (λ answer. Due answer.status job.Expand input.now answer.text) }
{
    let (text, _) = split(input);
    let (_, rest) = input.split_at(text.len());
    match lex(alloc, text) {
        Ok(tokens) => tokens_due(alloc, input, &tokens, rest),
        Err(LexEnd::BadByte(place)) => Ok(Answer {
            status: Status::BadText,
            text: refusal_text(
                alloc,
                Refusal {
                    fault: Fault::Byte,
                    place,
                },
            )?,
        }),
        Err(LexEnd::BadNumber(place)) => Ok(Answer {
            status: Status::BadText,
            text: refusal_text(
                alloc,
                Refusal {
                    fault: Fault::Number,
                    place,
                },
            )?,
        }),
        Err(LexEnd::Memory) => Err(AllocError),
    }
}
