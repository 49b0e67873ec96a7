//! A script's text, read line by line.

ghost use Rattle.std.specs.Prelude.{◌≡◌, ◌≤◌, ◌<◌, ◌∷◌, length, drop, IfOk, IfErr, OnOk, Ok};
ghost use Rattle.std.specs.Str.Lines.{lines, strip_carriage_return};
ghost use Rattle.m5_script.specs.Alone.{one_session, seen_after};
ghost use Rattle.m5_script.specs.Fields.{span};
ghost use Rattle.m5_script.specs.Line.{form_of};
ghost use Rattle.m5_script.specs.Reading.{IsReading};
ghost use Rattle.m5_script.specs.Script.{in_line, after_line, script_of, Ends, EndsLine};

use crate::form::{Form, LineEnd};
use crate::line::read_form;
use crate::reading::{LineKind, Reading};
use crate::script::Script;
use std::alloc::{AllocError, Global};

/// Why a text is no script.
#[derive(Debug, Drop)]
pub enum ScriptEnd {
    /// The number of the first bad line, from 1, and what is wrong with it.
    Line(u32, LineKind),
    Memory,
}

impl From<AllocError> for ScriptEnd {
    ghost use Rattle.std.specs.Prelude.{◌≡◌};
    ghost use Rattle.m5_script.specs.declared.read.ScriptEnd.TheVariants.{Memory};

    ghost from_gives = { λ _ e. e ≡ Memory };

    fn from(_error: AllocError) -> ScriptEnd {
        ScriptEnd::Memory
    }
}

/// How many bytes stand before the first line feed.
fn line_length(text: &[u8]) -> usize
    ensures count { result ≡ span in_line text.now }
    ensures within { result ≤ length text.now }
{
    text.iter().take_while(|byte| **byte != b'\n').count()
}

/// The line without one carriage return at its end.
#[tactic(auto, using(crate::proofs::Lines::strip_nothing))]
fn without_return(line: &[u8]) -> &[u8]
    ensures { result.now ≡ strip_carriage_return line.now }
{
    if line.is_empty() {
        return line;
    }
    if line[line.len() - 1] == b'\r' {
        line.split_at(line.len() - 1).0
    } else {
        line
    }
}

/// The first line, and how many bytes it takes with its end.
#[tactic(auto, using(crate::proofs::Lines::last_line, crate::proofs::Lines::more_lines))]
fn first_line(text: &[u8]) -> (&[u8], usize)
    requires { 0 < length text.now }
    ensures line { lines text.now ≡ result.0.now ∷ lines (drop result.1 text.now) }
    ensures some { 0 < result.1 }
    ensures within { result.1 ≤ length text.now }
{
    let end = line_length(text);
    let line = text.split_at(end).0;
    if end == text.len() {
        (line, end)
    } else {
        (without_return(line), end + 1)
    }
}

/// Takes the line of this number.
#[tactic(auto, unfolding(crate::specs::Script::after_line), using(crate::proofs::Rules::next_holds))]
fn take_line(
    alloc: Global,
    reading: &mut Reading,
    number: u32,
    line: &[u8],
) -> Result<(), ScriptEnd>
    requires { IsReading reading.old }
    ensures ok { OnOk result (after_line reading.old line.now ≡ Ok reading.new) }
    ensures holds { OnOk result (IsReading reading.new) }
    ensures err { IfErr result (λ e. EndsLine e number (after_line reading.old line.now)) }
{
    let form = match read_form(alloc, line) {
        Ok(form) => form,
        Err(LineEnd::Memory) => return Err(ScriptEnd::Memory),
        Err(LineEnd::Syntax) => return Err(ScriptEnd::Line(number, LineKind::Syntax)),
    };
    if let Some(kind) = reading.fault(&form) {
        return Err(ScriptEnd::Line(number, kind));
    }
    reading.take(form)?;
    Ok(())
}

/// The script that a text says.
#[tactic(auto, using(crate::proofs::Lines::line_taken, crate::proofs::Lines::line_refused, crate::proofs::Lines::begins, crate::proofs::Lines::all_taken))]
pub fn read_script(alloc: Global, text: &[u8]) -> Result<Script, ScriptEnd>
    requires { length text.now < 4294967295 }
    // The text is a script, and it says this.
    ensures ok { IfOk result (λ script. script_of text.now ≡ Ok script) }
    // The first bad line is this one, of this kind.
    ensures err { IfErr result (λ end. Ends end (script_of text.now)) }
{
    let mut reading = Reading::start(alloc);
    let mut number: u32 = 1;
    let mut at: usize = 0;
    while at < text.len() {
        let (line, length) = first_line(text.split_at(at).1);
        take_line(alloc, &mut reading, number, line)?;
        number += 1;
        at += length;
    }
    Ok(reading.finish())
}

/// Whether a line makes the session's line seen, or none where it may not stand.
fn seen_after_line(alloc: Global, seen: bool, line: &[u8]) -> Result<Option<bool>, AllocError>
    ensures { IfOk result (λ after. after ≡ seen_after seen (form_of line.now)) }
{
    match read_form(alloc, line) {
        Ok(Form::Skipped) => Ok(Some(seen)),
        Ok(Form::Sessions(1)) if !seen => Ok(Some(true)),
        Ok(_) | Err(LineEnd::Syntax) => Ok(None),
        Err(LineEnd::Memory) => Err(AllocError),
    }
}

/// Whether a text has no line but those that are skipped and at most one `sessions 1`.
pub fn is_one_session(alloc: Global, text: &[u8]) -> Result<bool, AllocError>
    ensures { IfOk result (λ answer. answer ≡ one_session text.now) }
{
    let mut seen = false;
    let mut at: usize = 0;
    while at < text.len() {
        let (line, length) = first_line(text.split_at(at).1);
        match seen_after_line(alloc, seen, line)? {
            Some(after) => seen = after,
            None => return Ok(false),
        }
        at += length;
    }
    Ok(true)
}
