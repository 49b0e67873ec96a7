//! The trace of a program of the first form.

ghost use Rattle.std.specs.Prelude.{◌≡◌, ◌≢◌, true, false, IfOk};
ghost use Rattle.m5_script.specs.Scenario.{silent};
ghost use Rattle.m5_cli.specs.First.{IsTrace, IsFirstTrace};

use m5_first::form::is_first_form;
use m5_first::walk::run;
use m5_front::program::Accepted;
use m5_script::read::is_one_session;
use m5_script::script::Script;
use m5_script::trace_text;
use m5_terms::text::Text;
use m5_typing::program::Program;
use std::alloc::{AllocError, Global};

/// The trace of a program that says texts alone, or none where it is another.
fn trace(alloc: Global, program: &Program) -> Result<Option<Text>, AllocError>
    ensures { IfOk result (IsTrace program.now) }
{
    match run(alloc, program)? {
        None => Ok(None),
        Some(history) => Ok(Some(trace_text(alloc, &history)?)),
    }
}

/// Whether a script says what an empty one says.
#[tactic(auto, using(crate::proofs::Silent::is_silent_by))]
fn is_silent(script: &Script) -> bool
    ensures yes { result ≡ true → script.now ≡ silent }
    ensures no { result ≡ false → script.now ≢ silent }
{
    if script.sessions != 1 || script.steps != 50_000 || script.region != 65_536 {
        return false;
    }
    if script.pairs.count() != 0 || script.events.count() != 0 {
        return false;
    }
    script.raws.count() == 0 && script.order.count() == 0
}

/// The trace of a program, or none where program or script is not of the first form.
pub(crate) fn first_trace(
    alloc: Global,
    accepted: &Accepted,
    text: &[u8],
    script: &Script,
) -> Result<Option<Text>, AllocError>
    ensures { IfOk result (IsFirstTrace text.now script.now accepted.now.tree accepted.now.program) }
{
    if !is_first_form(&accepted.tree) {
        return Ok(None);
    }
    if !is_one_session(alloc, text)? {
        return Ok(None);
    }
    if !is_silent(script) {
        return Ok(None);
    }
    trace(alloc, &accepted.program)
}
