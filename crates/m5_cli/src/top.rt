//! The top call: from the words of the command line to the status.

ghost use Rattle.m5_cli.specs.Headline.{HeadlineOf};

use crate::jobs::{finish, plain};
use crate::status::Status;
use crate::words::{Words, read_words};
use m5_base::gate::Gate;
use m5_base::sink::Sink;
use m5_base::source::Source;
use std::alloc::Global;
use std::sync::Wait;
use std::thread::Threads;

/// Does the job that the words name over a source and a sink, and answers how it ended: what `plain` answers, or
/// `Usage` with its line exactly where the words are no listed spelling. The runtime and the gate are for the jobs
/// that work sessions side by side.
pub fn ml5<R: Threads + Wait + Sync, S: Source, K: Sink, G: Gate + Sync>(
    _rt: &R,
    alloc: Global,
    words: &Words,
    source: &mut S,
    sink: &mut K,
    _gate: &G,
) -> Status
    ensures { HeadlineOf words.now
        (record { left = S.left source.old; held = K.held sink.old; read_faults = S.faults source.old; write_faults = K.faults sink.old })
        (record { left = S.left source.new; held = K.held sink.new; read_faults = S.faults source.new; write_faults = K.faults sink.new })
        result }
{
    match read_words(words) {
        Some(job) => plain(alloc, job, source, sink),
        None => finish(
            sink,
            Status::Usage,
            b"usage: ml5 check, run, ref, expand, replay\n",
        ),
    }
}
