//! The trace of a run as text.

ghost use Rattle.std.specs.Prelude.{◌≡◌, ◌++◌, IfOk, OnOk, codes};
ghost use Rattle.m5_terms.specs.Quoted.{quotation};
ghost use Rattle.m5_script.specs.Trace.{cause_word, last_words, line_of, trace_of, words_of, world_word};

use crate::words::{put_site, put_world};
use m5_terms::ask::{Act, Cause, End, Entry, History};
use m5_terms::decimal::put_number;
use m5_terms::quoted::put_quoted;
use m5_terms::text::Text;
use m5_terms::types::World;
use std::alloc::{AllocError, Global};

/// Adds a word and a text.
fn put_one(out: &mut Vec<u8>, word: &[u8], text: &Text) -> Result<(), AllocError>
    ensures { OnOk result (out.new.items ≡ out.old.items ++ (word.now ++ quotation text.now)) }
{
    out.extend_from_slice(word)?;
    put_quoted(out, text)
}

/// Adds a word and two texts.
fn put_two(out: &mut Vec<u8>, word: &[u8], first: &Text, second: &Text) -> Result<(), AllocError>
    ensures { OnOk result (out.new.items ≡ out.old.items ++ (word.now ++ quotation first.now ++ codes " " ++ quotation second.now)) }
{
    put_one(out, word, first)?;
    out.push(b' ')?;
    put_quoted(out, second)
}

/// Adds a word and the world at the other end.
fn put_end(out: &mut Vec<u8>, word: &[u8], other: World) -> Result<(), AllocError>
    ensures { OnOk result (out.new.items ≡ out.old.items ++ (word.now ++ world_word other)) }
{
    out.extend_from_slice(word)?;
    put_world(out, other)
}

fn put_cause(out: &mut Vec<u8>, cause: Cause) -> Result<(), AllocError>
    ensures { OnOk result (out.new.items ≡ out.old.items ++ cause_word cause) }
{
    match cause {
        Cause::Spent => out.extend_from_slice(b"spent"),
        Cause::Region => out.extend_from_slice(b"region"),
        Cause::Table => out.extend_from_slice(b"table"),
    }
}

fn put_missing(out: &mut Vec<u8>, key: &Text) -> Result<(), AllocError>
    ensures { OnOk result (out.new.items ≡ out.old.items ++ (codes "read " ++ quotation key.now ++ codes " none")) }
{
    put_one(out, b"read ", key)?;
    out.extend_from_slice(b" none")
}

fn put_stop(out: &mut Vec<u8>, cause: Cause) -> Result<(), AllocError>
    ensures { OnOk result (out.new.items ≡ out.old.items ++ (codes "stop " ++ cause_word cause)) }
{
    out.extend_from_slice(b"stop ")?;
    put_cause(out, cause)
}

/// Adds what an entry did.
fn put_act(out: &mut Vec<u8>, act: &Act) -> Result<(), AllocError>
    ensures { OnOk result (out.new.items ≡ out.old.items ++ words_of act.now) }
{
    match act {
        Act::Say(text) => put_one(out, b"say ", text),
        Act::Set(element, text) => put_two(out, b"set ", element, text),
        Act::GetText(element, text) => put_two(out, b"text ", element, text),
        Act::On(element) => put_one(out, b"on ", element),
        Act::ReadNone(key) => put_missing(out, key),
        Act::ReadSome(key, text) => put_two(out, b"read ", key, text),
        Act::Write(key, text) => put_two(out, b"write ", key, text),
        Act::Watch(key) => put_one(out, b"watch ", key),
        Act::Show(text) => put_one(out, b"show ", text),
        Act::Send(other) => put_end(out, b"send ", *other),
        Act::Take(other) => put_end(out, b"take ", *other),
        Act::Refuse => out.extend_from_slice(b"refuse"),
        Act::Fire(key) => put_one(out, b"fire ", key),
        Act::Event(element, text) => put_two(out, b"event ", element, text),
        Act::Stop(cause) => put_stop(out, *cause),
    }
}

/// Adds the line of an entry.
pub fn put_line(alloc: Global, out: &mut Vec<u8>, entry: &Entry) -> Result<(), AllocError>
    ensures { OnOk result (out.new.items ≡ out.old.items ++ line_of entry.now) }
{
    put_site(alloc, out, entry.session, entry.world)?;
    out.push(b' ')?;
    put_act(out, &entry.act)?;
    out.push(b'\n')?;
    Ok(())
}

/// Adds the words of a last line, without the byte that ends it.
pub fn put_last(alloc: Global, out: &mut Vec<u8>, end: &End) -> Result<(), AllocError>
    ensures { OnOk result (out.new.items ≡ out.old.items ++ last_words end.now) }
{
    match end {
        End::Rest => out.extend_from_slice(b"rest"),
        End::Stopped(count) => {
            out.extend_from_slice(b"stopped ")?;
            put_number(alloc, out, u64::from(*count))
        }
        End::Wrong(session, world, label) => {
            out.extend_from_slice(b"wrong ")?;
            put_site(alloc, out, *session, *world)?;
            out.push(b' ')?;
            put_number(alloc, out, *label as u64)
        }
    }
}

/// The trace of a run: one line an entry in their order, then one that says how the run ended.
pub fn trace_text(alloc: Global, history: &History) -> Result<Text, AllocError>
    ensures { IfOk result (λ text. text ≡ trace_of history.now) }
{
    let mut out = Vec::new(alloc);
    for entry in history.entries.as_slice() {
        put_line(alloc, &mut out, entry)?;
    }
    put_last(alloc, &mut out, &history.end)?;
    out.push(b'\n')?;
    Text::of(alloc, out.as_slice())
}
