//! Whether a trace is one of a program's run by a script.

ghost use Rattle.std.specs.Prelude.{◌≡◌, ◌+◌, ◌∷◌, ℕ, List, None, IfOk, MatchOption};
ghost use Rattle.m5_script.specs.Scenario.{Scenario};
ghost use Rattle.m5_replay.specs.Lines.{lines};
ghost use Rattle.m5_replay.specs.Verdicts.{Passed, line_number, IsVerdict};
ghost use Rattle.m5_replay.specs.code.Answering.{place_verdict, last_verdict};
ghost use Rattle.m5_replay.specs.code.Looking.{HasLimits};
ghost use Rattle.m5_replay.specs.code.Running.{StandsAt, IsReady, GoesOn};

use crate::check::{Checked, check_place};
use crate::last::check_last;
use crate::limits::{Limits, limits_of};
use crate::line::{named_cause, named_site, split_line};
use crate::running::{Running, open};
use crate::verdict::Verdict;
use m5_script::script::Script;
use m5_source_site::measured::MeasuredProgram;
use m5_typing::program::Program;
use std::alloc::{AllocError, Global};

/// The verdict where the line of this number names a place, or nothing where the trace goes on.
fn of_place(checked: Checked, number: u32) -> Option<Verdict>
    ensures { result ≡ place_verdict checked number }
{
    match checked {
        Checked::Fits => None,
        Checked::Differs => Some(Verdict::No(number)),
        Checked::Beyond => Some(Verdict::Spent(number)),
    }
}

/// The verdict where the line of this number is the last and names no place.
fn of_last(checked: Checked, number: u32) -> Verdict
    ensures { result ≡ last_verdict checked number }
{
    match checked {
        Checked::Fits => Verdict::Yes,
        Checked::Differs => Verdict::No(number),
        Checked::Beyond => Verdict::Spent(number),
    }
}

/// Checks the line of this number, and answers the verdict unless the trace goes on.
fn check_line(
    alloc: Global,
    program: &MeasuredProgram<'_>,
    limits: Limits,
    running: &mut Running,
    number: u32,
    line: &[u8],
    more: &[u8],
) -> Result<Option<Verdict>, AllocError>
    requires { IsReady limits.sessions running.old }
    ensures verdict { (S : Scenario) (trace : List ℕ) (p : Passed program.now S trace (line.now ∷ lines more.now)) → HasLimits S limits → StandsAt S running.old p.at p.weight p.deeds → number ≡ line_number p → IfOk result (λ o. MatchOption o (GoesOn program.now S trace (lines more.now) number running.new) (λ v. IsVerdict program.now S trace v)) }
    ensures ready { IfOk result (λ o. o ≡ None → IsReady limits.sessions running.new) }
{
    let Some(name) = named_site(line) else {
        if more.is_empty() {
            return Ok(Some(of_last(check_last(alloc, program, limits, running, line)?, number)));
        }
        return Ok(Some(Verdict::No(number)));
    };
    let checked = check_place(
        alloc,
        program,
        limits,
        running,
        name,
        named_cause(line),
        line,
    )?;
    Ok(of_place(checked, number))
}

/// No memory holds so many lines that they cannot be counted.
fn next_number(number: u32) -> Result<u32, AllocError>
    ensures { IfOk result (λ n. n ≡ number + 1) }
{
    number.checked_add(1).ok_or(AllocError)
}

/// Says whether the trace is one of the program's run by the script, by the places that its lines
/// name: all lines fit, or which line is the first that does not, or takes more than the budget to
/// settle.
pub fn replay(
    alloc: Global,
    program: &Program,
    script: &Script,
    trace: &[u8],
) -> Result<Verdict, AllocError>
    ensures { IfOk result (IsVerdict program.now script.now trace.now) }
{
    let measured = MeasuredProgram::of(program);
    let limits = limits_of(script);
    let mut running = open(alloc, &measured, script)?;
    let mut rest = trace;
    let mut number: u32 = 1;
    'lines: while !rest.is_empty() {
        let (line, more) = split_line(rest);
        if let Some(verdict) = check_line(
            alloc,
            &measured,
            limits,
            &mut running,
            number,
            line,
            more,
        )? {
            return Ok(verdict);
        }
        rest = more;
        number = next_number(number)?;
    }
    Ok(Verdict::No(number))
}
