//! What `replay` answers: the verdict on a trace, and its status.

ghost use Rattle.std.specs.Prelude.{◌≡◌, ◌++◌, IfOk, OnOk, codes};
ghost use Rattle.std.specs.Fmt.{decimal};
ghost use Rattle.m5_cli.specs.Replaying.{IsVerdictText, verdict_line, verdict_status};

use crate::answer::Answer;
use crate::status::Status;
use m5_replay::replay::replay;
use m5_replay::verdict::Verdict;
use m5_script::script::Script;
use m5_terms::decimal::put_number;
use m5_terms::text::Text;
use m5_typing::program::Program;
use std::alloc::{AllocError, Global};

/// The line of a word and the number of a trace's line.
fn numbered_text(alloc: Global, word: &[u8], number: u32) -> Result<Text, AllocError>
    ensures { IfOk result (λ text. text ≡ word.now ++ decimal number ++ codes "\n") }
{
    let mut out = Vec::new(alloc);
    out.extend_from_slice(word)?;
    put_number(alloc, &mut out, u64::from(number))?;
    out.push(b'\n')?;
    Text::of(alloc, out.as_slice())
}

/// The line of a verdict.
fn verdict_text(alloc: Global, verdict: Verdict) -> Result<Text, AllocError>
    ensures { IfOk result (λ text. text ≡ verdict_line verdict) }
{
    match verdict {
        Verdict::Yes => Text::of(alloc, b"yes\n"),
        Verdict::No(number) => numbered_text(alloc, b"no ", number),
        Verdict::Spent(number) => numbered_text(alloc, b"spent ", number),
    }
}

/// The status of a verdict.
fn status_of(verdict: Verdict) -> Status
    ensures { result ≡ verdict_status verdict }
{
    match verdict {
        Verdict::Yes => Status::Rest,
        Verdict::No(_) => Status::Refuted,
        Verdict::Spent(_) => Status::Unsettled,
    }
}

/// The verdict on a trace of a program and a script, with its status.
pub(crate) fn verdict_answer(
    alloc: Global,
    program: &Program,
    script: &Script,
    trace: &[u8],
) -> Result<Answer, AllocError>
    ensures { IfOk result (λ answer. IsVerdictText answer.status program.now script.now trace.now answer.text) }
{
    let verdict = replay(alloc, program, script, trace)?;
    Ok(Answer {
        status: status_of(verdict),
        text: verdict_text(alloc, verdict)?,
    })
}
