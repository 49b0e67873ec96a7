//! Lines of a trace, and the place that a line names.

ghost use Rattle.std.specs.Prelude.{◌≡◌, ◌≢◌, ◌≤◌, ◌+◌, [], ◌∷◌, length, IfSome};
ghost use Rattle.m5_terms.specs.declared.types.World.TheVariants.{Any};
ghost use Rattle.m5_script.specs.Fields.{span};
ghost use Rattle.m5_replay.specs.Lines.{lines, in_word, first_word, after_word, site_named, cause_of, cause_named};
ghost use Rattle.m5_replay.specs.code.Cutting.{in_line};

use m5_script::items::SiteName;
use m5_script::{number, world};
use m5_terms::ask::Cause;

/// How many bytes stand before the first byte 10.
fn line_feed(bytes: &[u8]) -> usize
    ensures count { result ≡ span in_line bytes.now }
    ensures within { result ≤ length bytes.now }
{
    bytes.iter().take_while(|byte| **byte != b'\n').count()
}

/// The first line, with the byte 10 that ends it if it has one, and what follows.
pub fn split_line(bytes: &[u8]) -> (&[u8], &[u8])
    requires { bytes.now ≢ [] }
    ensures lines { lines bytes.now ≡ result.0.now ∷ lines result.1.now }
    ensures length { length result.0.now + length result.1.now ≡ length bytes.now }
{
    let end = line_feed(bytes);
    if end == bytes.len() {
        bytes.split_at(end)
    } else {
        bytes.split_at(end + 1)
    }
}

/// How many bytes stand before the first blank or the line's end.
fn word_length(bytes: &[u8]) -> usize
    ensures count { result ≡ span in_word bytes.now }
    ensures within { result ≤ length bytes.now }
{
    bytes
        .iter()
        .take_while(|byte| !(**byte == b' ' || **byte == b'\n'))
        .count()
}

/// The bytes before the first blank or the line's end.
fn first_word(bytes: &[u8]) -> &[u8]
    ensures { result.now ≡ first_word bytes.now }
{
    bytes.split_at(word_length(bytes)).0
}

/// The bytes after that.
fn after_word(bytes: &[u8]) -> &[u8]
    ensures { result.now ≡ after_word bytes.now }
{
    let end = word_length(bytes);
    if end == bytes.len() {
        bytes.split_at(end).1
    } else {
        bytes.split_at(end + 1).1
    }
}

/// The site that the line begins with: a session's number without leading zeros, one blank, a
/// world, and then a blank or the line's end.
pub fn named_site(line: &[u8]) -> Option<SiteName>
    ensures site { result ≡ site_named line.now }
    ensures world { IfSome result (λ x. x.world ≢ Any) }
{
    let session = number(first_word(line))?;
    let world = world(first_word(after_word(line)))?;
    Some(SiteName { session, world })
}

fn cause(bytes: &[u8]) -> Option<Cause>
    ensures { result ≡ cause_of bytes.now }
{
    if bytes == b"stop spent".as_slice() || bytes == b"stop spent\n".as_slice() {
        Some(Cause::Spent)
    } else if bytes == b"stop region".as_slice() || bytes == b"stop region\n".as_slice() {
        Some(Cause::Region)
    } else {
        None
    }
}

/// The cause of a stop that the run chose, where nothing but that stands after the site.
pub fn named_cause(line: &[u8]) -> Option<Cause>
    ensures { result ≡ cause_named line.now }
{
    cause(after_word(after_word(line)))
}
