//! What is due for an input that was read whole: a status and the text that is written with it.

ghost use Rattle.std.specs.Prelude.{◌≡◌, ◌≤◌, length, IfErr, IfOk};
ghost use Rattle.m5_raw.specs.RawTerm.{RawTerm};
ghost use Rattle.m5_tree.specs.declared.tree.Tree.{Tree as TreeOf};
ghost use Rattle.m5_typing.specs.Program.{ProgramTerm};
ghost use Rattle.m5_front.specs.Refusal.{HasFault};
ghost use Rattle.m5_cli.specs.Cases.{IsBadScript};
ghost use Rattle.m5_cli.specs.Due.{Due, ReadsProgram};
ghost use Rattle.m5_cli.specs.Input.{parts_of};
ghost use Rattle.m5_cli.specs.Taken.{Accepts, SaysScript, input_limit};

use crate::answer::Answer;
use crate::expand::expanded;
use crate::first::first_trace;
use crate::input::split;
use crate::reference::reference_trace;
use crate::refusal::{fault_status, refusal_text, script_text};
use crate::replay::verdict_answer;
use crate::status::Status;
use crate::words::Job;
use m5_front::program::{Accepted, read_program};
use m5_front::refusal::{FrontEnd, Refusal};
use m5_script::read::{ScriptEnd, read_script};
use m5_script::script::Script;
use m5_terms::text::Text;
use std::alloc::{AllocError, Global};

/// What is due for a refused program text.
#[tactic(auto, using(crate::proofs::Refusing::refused_due))]
fn refused(alloc: Global, job: Job, input: &[u8], refusal: Refusal) -> Result<Answer, AllocError>
    requires reads { ReadsProgram job }
    requires short { length input.now ≤ input_limit }
    requires cause { HasFault (parts_of input.now).program refusal.fault refusal.place }
    requires not_accepted { (tree : TreeOf) (raw : RawTerm) (program : ProgramTerm) → Accepts input.now tree raw program → ⊥ }
    ensures { IfOk result (λ answer. Due answer.status job input.now answer.text) }
{
    Ok(Answer {
        status: fault_status(refusal.fault),
        text: refusal_text(alloc, refusal)?,
    })
}

/// What `check` owes for an accepted program.
fn checked(alloc: Global, input: &[u8], accepted: &Accepted) -> Result<Answer, AllocError>
    requires short { length input.now ≤ input_limit }
    requires accepted { Accepts input.now accepted.now.tree accepted.now.raw accepted.now.program }
    ensures { IfOk result (λ answer. Due answer.status Job.Check input.now answer.text) }
{
    Ok(Answer {
        status: Status::Rest,
        text: Text::of(alloc, b"accepted\n")?,
    })
}

/// The script that a text says, or what is due for its first bad line.
fn script_in(
    alloc: Global,
    input: &[u8],
    accepted: &Accepted,
    text: &[u8],
) -> Result<Result<Script, Answer>, AllocError>
    requires short { length input.now ≤ input_limit }
    requires accepted { Accepts input.now accepted.now.tree accepted.now.raw accepted.now.program }
    requires within { length text.now ≤ length input.now }
    ensures says { IfOk result (λ read. IfOk read (SaysScript text.now)) }
    ensures bad { IfOk result (λ read. IfErr read (λ answer. (answer.status ≡ Status.BadScript) × IsBadScript input.now text.now answer.text)) }
{
    match read_script(alloc, text) {
        Ok(script) => Ok(Ok(script)),
        Err(ScriptEnd::Memory) => Err(AllocError),
        Err(ScriptEnd::Line(number, kind)) => Ok(Err(Answer {
            status: Status::BadScript,
            text: script_text(alloc, number, kind)?,
        })),
    }
}

/// What `run` owes for an accepted program and a script.
fn run_script(
    alloc: Global,
    input: &[u8],
    accepted: &Accepted,
    text: &[u8],
    script: &Script,
) -> Result<Answer, AllocError>
    requires short { length input.now ≤ input_limit }
    requires accepted { Accepts input.now accepted.now.tree accepted.now.raw accepted.now.program }
    requires text { text.now ≡ (parts_of input.now).script }
    requires script { SaysScript (parts_of input.now).script script.now }
    ensures { IfOk result (λ answer. Due answer.status Job.Run input.now answer.text) }
{
    match first_trace(alloc, accepted, text, script)? {
        Some(text) => Ok(Answer {
            status: Status::Rest,
            text,
        }),
        None => Ok(Answer {
            status: Status::Unbuilt,
            text: Text::of(alloc, b"refused unbuilt\n")?,
        }),
    }
}

/// What `run` owes for an accepted program and a script text.
fn run(alloc: Global, input: &[u8], accepted: &Accepted, text: &[u8]) -> Result<Answer, AllocError>
    requires short { length input.now ≤ input_limit }
    requires accepted { Accepts input.now accepted.now.tree accepted.now.raw accepted.now.program }
    requires text { text.now ≡ (parts_of input.now).script }
    requires within { length text.now ≤ length input.now }
    ensures { IfOk result (λ answer. Due answer.status Job.Run input.now answer.text) }
{
    match script_in(alloc, input, accepted, text)? {
        Ok(script) => run_script(alloc, input, accepted, text, &script),
        Err(answer) => Ok(answer),
    }
}

/// What `ref` owes for an accepted program and a script text.
fn reference(
    alloc: Global,
    input: &[u8],
    accepted: &Accepted,
    text: &[u8],
) -> Result<Answer, AllocError>
    requires short { length input.now ≤ input_limit }
    requires accepted { Accepts input.now accepted.now.tree accepted.now.raw accepted.now.program }
    requires text { text.now ≡ (parts_of input.now).script }
    requires within { length text.now ≤ length input.now }
    ensures { IfOk result (λ answer. Due answer.status Job.Ref input.now answer.text) }
{
    match script_in(alloc, input, accepted, text)? {
        Ok(script) => reference_trace(alloc, &accepted.program, &script),
        Err(answer) => Ok(answer),
    }
}

/// What `replay` owes for an accepted program and a script text with a trace after its dividing line.
fn replayed(
    alloc: Global,
    input: &[u8],
    accepted: &Accepted,
    rest: &[u8],
) -> Result<Answer, AllocError>
    requires short { length input.now ≤ input_limit }
    requires accepted { Accepts input.now accepted.now.tree accepted.now.raw accepted.now.program }
    requires rest { rest.now ≡ (parts_of input.now).script }
    requires within { length rest.now ≤ length input.now }
    ensures { IfOk result (λ answer. Due answer.status Job.Replay input.now answer.text) }
{
    let (text, trace) = split(rest);
    match script_in(alloc, input, accepted, text)? {
        Ok(script) => verdict_answer(alloc, &accepted.program, &script, trace),
        Err(answer) => Ok(answer),
    }
}

/// What a job that reads the program text as it stands owes for an input.
fn program_due(alloc: Global, job: Job, input: &[u8]) -> Result<Answer, AllocError>
    requires reads { ReadsProgram job }
    requires short { length input.now ≤ input_limit }
    ensures { IfOk result (λ answer. Due answer.status job input.now answer.text) }
{
    let (text, script) = split(input);
    let accepted = match read_program(alloc, text) {
        Ok(accepted) => accepted,
        Err(FrontEnd::Refused(refusal)) => return refused(alloc, job, input, refusal),
        Err(FrontEnd::Memory) => return Err(AllocError),
    };
    match job {
        Job::Check => checked(alloc, input, &accepted),
        Job::Run => run(alloc, input, &accepted, script),
        Job::Ref => reference(alloc, input, &accepted, script),
        Job::Replay => replayed(alloc, input, &accepted, script),
        Job::Expand => unreachable!(),
    }
}

/// What a job owes for an input.
pub(crate) fn due(alloc: Global, job: Job, input: &[u8]) -> Result<Answer, AllocError>
    requires { length input.now ≤ input_limit }
    ensures { IfOk result (λ answer. Due answer.status job input.now answer.text) }
{
    match job {
        Job::Check => program_due(alloc, Job::Check, input),
        Job::Run => program_due(alloc, Job::Run, input),
        Job::Ref => program_due(alloc, Job::Ref, input),
        Job::Expand => expanded(alloc, input),
        Job::Replay => program_due(alloc, Job::Replay, input),
    }
}
