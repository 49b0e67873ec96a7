//! The jobs that need no runtime: read the input, do the job, write what is due.

ghost use Rattle.std.specs.Prelude.{◌≡◌, ◌≢◌, ◌≤◌, ◌⊎◌, ℕ, List, length, IfSome};
ghost use Rattle.std.specs.Io.KnownBytes.{Keeps};
ghost use Rattle.m5_base.specs.Causes.{Rose};
ghost use Rattle.m5_cli.specs.Due.{Due};
ghost use Rattle.m5_cli.specs.Headline.{Headline};
ghost use Rattle.m5_cli.specs.Leaves.{Completes, Finishes, Leaves, Takes};
ghost use Rattle.m5_cli.specs.Taken.{input_limit};
ghost use Rattle.m5_cli.specs.declared.words.Job.{Job as JobOf};

use crate::due::due;
use crate::status::Status;
use crate::words::Job;
use m5_base::bytes::{ReadEnd, read_all, write_all};
use m5_base::sink::Sink;
use m5_base::source::Source;
use std::alloc::Global;

/// The most bytes that an input may have.
const INPUT_LIMIT: u64 = 262_144;

/// Writes what is due with a status, and answers that status, or the sink's failure.
pub fn finish<K: Sink>(sink: &mut K, status: Status, due: &[u8]) -> Status
    ensures finishes { Finishes (K.held sink.old) (K.held sink.new) status due.now result }
    ensures leaves { (job : JobOf) (input : List ℕ) → Due status job input due.now → Leaves job (K.held sink.old) (K.held sink.new) input result }
    ensures complete { (job : JobOf) (input : List ℕ) → Due status job input due.now → Takes job input → Completes job result }
    ensures fault { result ≡ Status.WriteFault → (status ≡ Status.WriteFault) ⊎ Rose (K.faults sink.old) (K.faults sink.new) }
    ensures later { K.faults sink.old ≤ K.faults sink.new }
{
    match write_all(sink, due) {
        Ok(()) => status,
        Err(_) => Status::WriteFault,
    }
}

/// Answers an input that was read whole.
fn answer<K: Sink>(alloc: Global, job: Job, input: &[u8], sink: &mut K) -> Status
    requires { length input.now ≤ input_limit }
    ensures leaves { Leaves job (K.held sink.old) (K.held sink.new) input.now result }
    ensures complete { Takes job input.now → Completes job result }
    ensures no_read_fault { result ≢ Status.ReadFault }
    ensures no_usage { result ≢ Status.Usage }
    ensures write_fault { result ≡ Status.WriteFault → Rose (K.faults sink.old) (K.faults sink.new) }
{
    match due(alloc, job, input) {
        Ok(answer) => finish(sink, answer.status, answer.text.bytes()),
        Err(_) => finish(sink, Status::NoMemory, b"refused memory\n"),
    }
}

/// Does a job over a source and a sink, and answers how it ended.
///
/// `check` reads a program, and writes that it is accepted. `run` and `ref` read a program and a script, and write the trace
/// of the program's run: `run` of a program and a script of the first form, `ref` of any, by the meaning itself, each site
/// within the lesser of the script's steps and 5,000. Where a trace has a stop line the answer is `Stopped`, else `Rest`.
/// `expand` reads a program text, and writes its expansion, where that is accepted, and the input from its dividing line on as it
/// is. `replay` reads a program, a script and, after a second dividing line, a trace, and writes whether the trace is one of the
/// program's run by the script: `yes` at `Rest`, `no L` at `Refuted` where L is the first line that does not fit, and `spent L`
/// at `Unsettled` where line L needs more than the budget.
///
/// Where the input has more than 262,144 bytes the answer is `TooLong`, where the program text is refused `BadText` or
/// `BadTypes`, where `run`, `ref` or `replay` refuses the script `BadScript`, and where `run` is given another form `Unbuilt`, each
/// with its line; `ReadFault` and `WriteFault` come with a failure of the source and the sink, and `NoMemory` where memory
/// ran out. For `expand` a text is refused with bad bytes and numbers, without an expansion, and with one that is refused. So an
/// accepted program, with a script where the job reads one, is answered with the job's output, or by a fault, `NoMemory` or, of
/// `run`, `Unbuilt`.
pub fn plain<S: Source, K: Sink>(alloc: Global, job: Job, source: &mut S, sink: &mut K) -> Status
    ensures { Headline job
        (record { left = S.left source.old; held = K.held sink.old; read_faults = S.faults source.old; write_faults = K.faults sink.old })
        (record { left = S.left source.new; held = K.held sink.new; read_faults = S.faults source.new; write_faults = K.faults sink.new })
        result }
{
    match read_all(alloc, source, INPUT_LIMIT) {
        Err(ReadEnd::Failed) => Status::ReadFault,
        Err(ReadEnd::TooLong) => finish(sink, Status::TooLong, b"refused long\n"),
        Err(ReadEnd::Memory) => finish(sink, Status::NoMemory, b"refused memory\n"),
        Ok(input) => answer(alloc, job, input.as_slice(), sink),
    }
}
