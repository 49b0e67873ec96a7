//! What a verdict says of runs, each law on a function that does nothing.

ghost use Rattle.m5_replay.specs.Laws.{YesIsRun, RunIsYes, NoExcludes, NoExcludesLonger, NoIsNoRun, OneVerdict};

/// A yes says that the trace is the text of a run by the places that it names, and that this run is finished.
pub fn yes_is_run_holds()
    ensures { YesIsRun }
{}

/// The text of a finished run gets a yes, unless the settling of a line is beyond the budget.
pub fn run_is_yes_holds()
    ensures { RunIsYes }
{}

/// Where the line of a no names a place, no run has a trace that begins with the lines up to it.
/// Where it names none and is not the last, no run has one that begins with one line more.
pub fn no_excludes_holds()
    ensures named { NoExcludes }
    ensures longer { NoExcludesLonger }
{}

/// No finished run has the trace of a no, be it cut short too.
pub fn no_is_no_run_holds()
    ensures { NoIsNoRun }
{}

/// A trace has one verdict.
pub fn one_verdict_holds()
    ensures { OneVerdict }
{}
