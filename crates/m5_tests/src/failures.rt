//! What a job leaves where one read or write fails, and its whole call over memory.

use m5_base::gate::OpenGate;
use m5_base::sink::MemSink;
use m5_base::source::MemSource;
use m5_cli::{Job, Status, Words, ml5, plain};
use std::alloc::{AllocError, Global};
use std::test::Fail;

const HI: &[u8] = b"extern val say : string -> unit @ home\nmain = say \"hi\"\n%%\nsessions 1\n";

/// A job, the read that fails and the write that fails, none being 0, the status, and what the sink then holds.
const CASES: [(Job, u64, u64, Status, &[u8]); 15] = [
    (Job::Run, 0, 0, Status::Rest, b"1 home say \"hi\"\nrest\n"),
    (Job::Ref, 0, 0, Status::Rest, b"1 home say \"hi\"\nrest\n"),
    (Job::Check, 0, 0, Status::Rest, b"accepted\n"),
    (Job::Run, 1, 0, Status::ReadFault, b""),
    (Job::Ref, 3, 0, Status::ReadFault, b""),
    (Job::Check, 6, 0, Status::ReadFault, b""),
    (Job::Run, 0, 2, Status::WriteFault, b"1 home say \"hi\"\n"),
    (Job::Ref, 0, 1, Status::WriteFault, b""),
    (Job::Check, 0, 1, Status::WriteFault, b""),
    (Job::Expand, 0, 0, Status::Rest, HI),
    (Job::Expand, 2, 0, Status::ReadFault, b""),
    (Job::Expand, 0, 2, Status::WriteFault, b"extern val say :"),
    (Job::Replay, 0, 0, Status::Refuted, b"no 1\n"),
    (Job::Replay, 2, 0, Status::ReadFault, b""),
    (Job::Replay, 0, 1, Status::WriteFault, b""),
];

/// The status of a job and what the sink then holds, for the input and the output in pieces of 16 bytes.
fn answer(
    alloc: Global,
    job: Job,
    failing_read: u64,
    failing_write: u64,
) -> Result<(Status, MemSink), AllocError> {
    let mut source = MemSource::new(alloc, HI, 16, &[failing_read])?;
    let mut sink = MemSink::new(alloc, 4096, 16, &[failing_write])?;
    let status = plain(alloc, job, &mut source, &mut sink);
    Ok((status, sink))
}

#[test]
fn leave_a_prefix(rt: HostRuntime) -> Result<(), Fail> {
    let alloc = rt.alloc();
    for (job, failing_read, failing_write, wanted, held) in CASES {
        let (status, sink) = answer(alloc, job, failing_read, failing_write)?;
        assert_eq!(rt; status, wanted);
        assert_eq!(rt; sink.held(), held);
    }
    Ok(())
}

#[test]
fn come_after_the_words(rt: HostRuntime) -> Result<(), Fail> {
    let alloc = rt.alloc();
    let mut source = MemSource::new(alloc, HI, 16, &[1])?;
    let mut sink = MemSink::new(alloc, 64, 64, &[])?;
    let mut words = Words::make(alloc);
    let status = ml5(&rt, alloc, &words, &mut source, &mut sink, &OpenGate);
    assert_eq!(rt; status, Status::Usage);
    assert_eq!(rt;
        sink.held(),
        b"usage: ml5 check, run, ref, expand, replay\n".as_slice()
    );
    words.push("check")?;
    let status = ml5(&rt, alloc, &words, &mut source, &mut sink, &OpenGate);
    assert_eq!(rt; status, Status::ReadFault);
    Ok(())
}
