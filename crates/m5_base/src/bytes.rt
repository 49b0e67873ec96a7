//! Reading a source to its end, and writing a list of bytes whole.

ghost use Rattle.std.specs.Prelude.{◌≡◌, ◌+◌, ◌≤◌, ◌<◌, ℕ, List, length, take, Err, IfOk, OnOk, OnErr, IfSome};
ghost use Rattle.std.specs.Io.KnownBytes.{Appends, Consumes};
ghost use Rattle.m5_base.specs.Causes.{Rose, HasCause};

use crate::sink::{Sink, SinkFailed};
use crate::source::Source;
use std::alloc::{AllocError, Global};
use std::marker::Model;

/// A list of bytes.
#[derive(Debug, Drop)]
pub struct Bytes {
    items: Vec<u8>,
}

impl Model for Bytes {
    ghost use Rattle.std.specs.Prelude.{List, ℕ};

    ghost Value = { List ℕ };

    ghost view = { λ b. b.items.items };
}

impl Bytes {
    pub fn as_slice(&self) -> &[u8]
        ensures { result.now ≡ self.now }
    {
        self.items.as_slice()
    }
}

/// Why an input was not read whole.
#[derive(Clone, Copy, Debug, PartialEq, Eq)]
pub enum ReadEnd {
    Failed,
    TooLong,
    Memory,
}

/// How many bytes one read asks for at most.
const PIECE: usize = 4096;

/// The source's whole input, of at most `limit` bytes. The room for it is reserved before the first read, so
/// `Memory` leaves the source as it was; `TooLong` comes where a byte follows the limit, and `Failed` with a
/// failure of the source.
pub fn read_all<S: Source>(alloc: Global, source: &mut S, limit: u64) -> Result<Bytes, ReadEnd>
    ensures all { IfOk result (λ bytes. IfSome (S.left source.old) (λ xs. bytes ≡ xs)) }
    ensures within { IfOk result (λ bytes. length bytes ≤ limit) }
    ensures too_long { result ≡ Err ReadEnd.TooLong → IfSome (S.left source.old) (λ xs. limit < length xs) }
    ensures failed { result ≡ Err ReadEnd.Failed → Rose (S.faults source.old) (S.faults source.new) }
    ensures memory { result ≡ Err ReadEnd.Memory → source.new ≡ source.old }
    ensures later { S.faults source.old ≤ S.faults source.new }
{
    let Some(room) = limit.checked_add(1) else {
        return Err(ReadEnd::Memory);
    };
    let room = room as usize;
    let Ok(mut items) = Vec::with_capacity(alloc, room) else {
        return Err(ReadEnd::Memory);
    };
    let mut piece = [0; PIECE];
    while items.len() < room {
        let wanted = PIECE.min(room - items.len());
        match source.read(&mut piece[..wanted]) {
            Ok(0) => return Ok(Bytes { items }),
            Ok(count) => match items.extend_from_slice(&piece[..count]) {
                Ok(()) => {}
                Err(_) => unreachable!(),
            },
            Err(_) => return Err(ReadEnd::Failed),
        }
    }
    Err(ReadEnd::TooLong)
}

/// Gives the sink all bytes, in order. After a failure of the sink it has taken a proper prefix of them.
pub fn write_all<K: Sink>(sink: &mut K, bytes: &[u8]) -> Result<(), SinkFailed>
    ensures all { OnOk result (Appends (K.held sink.old) (K.held sink.new) bytes.now) }
    ensures prefix { OnErr result ((n : ℕ) × (n < length bytes.now) × Appends (K.held sink.old) (K.held sink.new) (take n bytes.now)) }
    ensures cause { HasCause (K.faults sink.old) (K.faults sink.new) result }
{
    let mut done = 0;
    while done < bytes.len() {
        match sink.write(&bytes[done..]) {
            Ok(count) => done += count,
            Err(failed) => return Err(failed),
        }
    }
    Ok(())
}
