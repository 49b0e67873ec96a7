//! A text as its tokens, or its first fault.

ghost use Rattle.std.specs.Prelude.{◌≡◌, ◌≤◌, ◌<◌, ◌+◌, ◌^◌, length, take, drop, IfOk, IfErr, Ok};
ghost use Rattle.m5_lex.specs.Lexed.{lexed, tokens_from, followed_by, Ends};
ghost use Rattle.m5_lex.specs.Place.{after};

use crate::lexeme::{Lexeme, read_lexeme};
use crate::place::Place;
use crate::tokens::Tokens;
use std::alloc::{AllocError, Global};

/// Why a text has no tokens.
#[derive(Debug, Drop)]
pub enum LexEnd {
    /// A byte that fits nowhere, at its place.
    BadByte(Place),
    /// A number above 9223372036854775807, at its first digit.
    BadNumber(Place),
    Memory,
}

impl From<AllocError> for LexEnd {
    ghost use Rattle.std.specs.Prelude.{◌≡◌};
    ghost use Rattle.m5_lex.specs.declared.lexed.LexEnd.TheVariants.{Memory};

    ghost from_gives = { λ _ e. e ≡ Memory };

    fn from(_error: AllocError) -> LexEnd {
        LexEnd::Memory
    }
}

/// Takes one lexeme at the head of a rest that is not empty, and says how many bytes it has.
#[tactic(auto, using(crate::proofs::Taking::after_gap, crate::proofs::Taking::after_token, crate::proofs::Taking::at_bad_byte, crate::proofs::Taking::at_bad_number))]
fn take_lexeme(
    alloc: Global,
    tokens: &mut Tokens,
    place: Place,
    rest: &[u8],
) -> Result<usize, LexEnd>
    requires some { 1 ≤ length rest.now }
    requires room { length tokens.old.tokens < 4294967295 }
    requires line { place.line + length rest.now < 2 ^ 32 }
    requires column { place.column + length rest.now < 2 ^ 32 }
    ensures within { IfOk result (λ n. (1 ≤ n) × (n ≤ length rest.now)) }
    ensures count { length tokens.new.tokens ≤ length tokens.old.tokens + 1 }
    ensures ending { tokens.new.ending ≡ tokens.old.ending }
    ensures ok { IfOk result (λ n. followed_by tokens.new.tokens (tokens_from 0 (after place (take n rest.now)) (drop n rest.now))
        ≡ followed_by tokens.old.tokens (tokens_from 0 place rest.now)) }
    ensures err { IfErr result (λ end. Ends end (followed_by tokens.old.tokens (tokens_from 0 place rest.now))) }
{
    match read_lexeme(alloc, rest)? {
        Lexeme::Gap(length) => Ok(length),
        Lexeme::Token(token, length) => {
            tokens.push(token, place)?;
            Ok(length)
        }
        Lexeme::BadByte(length) => Err(LexEnd::BadByte(place.after(&rest[..length]))),
        Lexeme::BadNumber => Err(LexEnd::BadNumber(place)),
    }
}

/// The tokens of a text, each with its place, and the place after its last byte.
#[tactic(auto, unfolding(crate::specs::Lexed::lexed))]
pub fn lex(alloc: Global, text: &[u8]) -> Result<Tokens, LexEnd>
    requires { length text.now < 4294967295 }
    // The text has tokens, and they are these.
    ensures tokens { IfOk result (λ tokens. lexed text.now ≡ Ok tokens) }
    // The first fault from the left is this one.
    ensures fault { IfErr result (λ end. Ends end (lexed text.now)) }
{
    let mut tokens = Tokens::make(alloc, Place::first().after(text));
    let mut place = Place::first();
    let mut at: usize = 0;
    while at < text.len() {
        let rest = &text[at..];
        let length = take_lexeme(alloc, &mut tokens, place, rest)?;
        place = place.after(&rest[..length]);
        at += length;
    }
    Ok(tokens)
}
