//! The words of a script's line, and what they stand for.

ghost use Rattle.std.specs.Prelude.{◌≡◌, ◌≢◌, ◌≤◌, ℕ, List, [], ◌∷◌, length, IfSome, IfOk, IfErr, OnOk, Some};
ghost use Rattle.std.specs.List.{find, list_all, slice_split};
ghost use Rattle.std.specs.Str.{bytes_eq};
ghost use Rattle.m5_terms.specs.Decimal.{is_digit};
ghost use Rattle.m5_terms.specs.declared.types.World.TheVariants.{Any};
ghost use Rattle.m5_script.specs.Fields.{is_blank, is_solid, span, skipped, word_at, before_dot, number_of, is_number, world_of, site_of, sites_from, Refuses};
ghost use Rattle.m5_script.specs.Line.{AreSites};
ghost use Rattle.m5_script.specs.Trace.{world_word};

use crate::form::LineEnd;
use crate::items::{SiteName, Sites};
use crate::words::word_of_world;
use m5_terms::decimal::{is_digit, value_within};
use m5_terms::types::World;
use m5_terms::worlds::worlds_of_sites;
use std::alloc::Global;

/// The value of every longer number, which is beyond each limit.
const NUMBER_CAP: u64 = 1_000_000;

pub fn is_blank_byte(byte: u8) -> bool
    ensures { result ≡ is_blank byte }
{
    byte == b' ' || byte == b'\t'
}

/// How many blanks stand at the beginning.
fn blanks(bytes: &[u8]) -> usize
    ensures count { result ≡ span is_blank bytes.now }
    ensures within { result ≤ length bytes.now }
{
    bytes
        .iter()
        .take_while(|byte| is_blank_byte(**byte))
        .count()
}

/// How many bytes stand before the first blank.
fn solids(bytes: &[u8]) -> usize
    ensures count { result ≡ span is_solid bytes.now }
    ensures within { result ≤ length bytes.now }
{
    bytes
        .iter()
        .take_while(|byte| !is_blank_byte(**byte))
        .count()
}

/// What follows the blanks at the beginning.
pub fn skip(bytes: &[u8]) -> &[u8]
    ensures { result.now ≡ skipped bytes.now }
{
    bytes.split_at(blanks(bytes)).1
}

/// The next word, and what follows it.
pub fn word(bytes: &[u8]) -> (&[u8], &[u8])
    ensures word { result.0.now ≡ (word_at bytes.now).0 }
    ensures rest { result.1.now ≡ (word_at bytes.now).1 }
{
    let from = skip(bytes);
    from.split_at(solids(from))
}

fn are_digits(word: &[u8]) -> bool
    ensures { result ≡ list_all is_digit word.now }
{
    word.iter().all(|byte| is_digit(*byte))
}

/// Whether the word is a number: digits, the first of which is 0 in 0 alone.
#[tactic(auto, using(crate::proofs::Scanning::number_none, crate::proofs::Scanning::number_one, crate::proofs::Scanning::number_zero, crate::proofs::Scanning::number_more))]
fn is_number(word: &[u8]) -> bool
    ensures { result ≡ is_number word.now }
{
    if word.is_empty() {
        return false;
    }
    if word.len() == 1 {
        return are_digits(word);
    }
    if word[0] == b'0' {
        return false;
    }
    are_digits(word)
}

/// The number that a word spells.
#[tactic(auto, using(crate::proofs::Scanning::number_digits))]
pub fn number(word: &[u8]) -> Option<u32>
    ensures { result ≡ number_of word.now }
{
    if !is_number(word) {
        return None;
    }
    match value_within(word, NUMBER_CAP) {
        Some(value) => Some(value as u32),
        None => Some(NUMBER_CAP as u32),
    }
}

/// The first of these worlds that the word is for.
fn named_among(worlds: &[World], word: &[u8]) -> Option<World>
    ensures { result ≡ find (λ w. bytes_eq word.now (world_word w)) worlds.now }
{
    match worlds.split_first() {
        None => None,
        Some((world, rest)) => {
            if word == word_of_world(*world) {
                Some(*world)
            } else {
                named_among(rest, word)
            }
        }
    }
}

/// The world that has sites and that the word is for.
#[tactic(auto, using(crate::proofs::Scanning::named_real))]
pub fn world(word: &[u8]) -> Option<World>
    ensures value { result ≡ world_of word.now }
    ensures site { IfSome result (λ w. w ≢ Any) }
{
    named_among(&worlds_of_sites(), word)
}

/// How many bytes stand before the first dot.
fn dot_place(word: &[u8]) -> usize
    ensures count { result ≡ span before_dot word.now }
    ensures within { result ≤ length word.now }
{
    word.iter().take_while(|byte| **byte != b'.').count()
}

/// The site that a word names.
#[tactic(auto, unfolding(crate::specs::Fields::site_of), using(crate::proofs::Scanning::no_dot))]
pub fn site(word: &[u8]) -> Option<SiteName>
    ensures value { result ≡ site_of word.now }
    ensures world { IfSome result (λ s. s.world ≢ Any) }
{
    let dot = dot_place(word);
    if dot == word.len() {
        return None;
    }
    let session = number(word.split_at(dot).0)?;
    let world = world(word.split_at(dot + 1).1)?;
    Some(SiteName { session, world })
}

/// Adds the site that a word names; an empty word names none.
#[tactic(auto, using(crate::proofs::Scanning::named, crate::proofs::Scanning::misnamed, crate::proofs::Scanning::unnamed, crate::proofs::Scanning::sites_push))]
fn add_site(sites: &mut Sites, word: &[u8]) -> Result<(), LineEnd>
    requires { AreSites sites.old }
    ensures ok { OnOk result ((words : List (List ℕ)) → sites_from sites.old (word.now ∷ words) ≡ sites_from sites.new words) }
    ensures worlds { OnOk result (AreSites sites.new) }
    ensures err { IfErr result (λ e. (words : List (List ℕ)) → Refuses e (sites_from sites.old (word.now ∷ words))) }
{
    if word.is_empty() {
        return Ok(());
    }
    let Some(site) = site(word) else {
        return Err(LineEnd::Syntax);
    };
    sites.push(site)?;
    Ok(())
}

/// The sites that the words of a line name.
#[tactic(auto, using(crate::proofs::Scanning::split_more, crate::proofs::Scanning::split_last))]
pub fn sites(alloc: Global, bytes: &[u8]) -> Result<Sites, LineEnd>
    ensures ok { IfOk result (λ s. sites_from [] (slice_split is_blank bytes.now) ≡ Some s) }
    ensures worlds { IfOk result (λ s. AreSites s) }
    ensures err { IfErr result (λ e. Refuses e (sites_from [] (slice_split is_blank bytes.now))) }
{
    let mut sites = Sites::make(alloc);
    let mut rest = bytes;
    loop {
        let (word, after) = rest.split_at(solids(rest));
        add_site(&mut sites, word)?;
        if after.is_empty() {
            return Ok(sites);
        }
        rest = after.split_at(1).1;
    }
}
