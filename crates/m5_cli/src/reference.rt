//! The trace of a program's meaning, run by substitution.

ghost use Rattle.std.specs.Prelude.{◌≡◌, IfOk, sum_by};
ghost use Rattle.m5_terms.specs.declared.ask.Entry.{Entry as EntryOf};
ghost use Rattle.m5_network.specs.Claim.{ending, stop_count};
ghost use Rattle.m5_cli.specs.Reference.{EndsWith, IsReferenceTrace};

use crate::answer::Answer;
use crate::status::Status;
use m5_reference::run::reference_run;
use m5_script::script::Script;
use m5_script::trace_text;
use m5_terms::ask::{End, History};
use m5_typing::program::Program;
use std::alloc::{AllocError, Global};

/// The status of a run whose end counts its stops.
#[tactic(auto, using(crate::proofs::Ends::no_wrong))]
fn end_status(history: &History) -> Status
    requires ended { history.now.end ≡ ending (sum_by (λ (e : EntryOf). stop_count e.act) history.now.entries) }
    ensures { EndsWith result history.now.end }
{
    match history.end {
        End::Rest => Status::Rest,
        End::Stopped(_) | End::Wrong(..) => Status::Stopped,
    }
}

/// The trace of the reference run of a program by a script, with the status at which the run ends.
pub(crate) fn reference_trace(
    alloc: Global,
    program: &Program,
    script: &Script,
) -> Result<Answer, AllocError>
    ensures { IfOk result (λ answer. IsReferenceTrace answer.status program.now script.now answer.text) }
{
    let history = reference_run(alloc, program, script)?;
    Ok(Answer {
        status: end_status(&history),
        text: trace_text(alloc, &history)?,
    })
}
