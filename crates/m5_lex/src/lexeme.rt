//! The lexeme at the head of a rest of the text.

ghost use Rattle.std.specs.Prelude.{◌≡◌, ◌≤◌, ◌<◌, ◌+◌, length, IfOk, IfSome, IfErr, slice_index, drop, true, [], ◌∷◌};
ghost use Rattle.std.specs.List.{take_while, AllPass};
ghost use Rattle.m5_terms.specs.Decimal.{is_digit};
ghost use Rattle.m5_terms.specs.Quoted.{quoted};
ghost use Rattle.m5_lex.specs.Alphabet.{is_name_byte, is_letter, keywords, symbols, place_of};
ghost use Rattle.m5_lex.specs.Lexeme.{comment_length, comment_lexeme, lexeme, literal_lexeme, name_lexeme, word_or_name, number_lexeme, symbol_lexeme};
ghost use Rattle.m5_lex.specs.Lexeme.{Fits};
ghost use Rattle.m5_lex.specs.Token.{IsToken};

use crate::alphabet;
use crate::token::Token;
use m5_terms::decimal::{is_digit, value_within};
use m5_terms::quoted::{Quoted, read_quoted};
use m5_terms::text::{Text, byte_at};
use std::alloc::{AllocError, Global};

/// The largest number.
const LARGEST: u64 = 9_223_372_036_854_775_807;

/// What stands at the head of a rest of the text, with its length.
#[derive(Drop)]
pub(crate) enum Lexeme {
    /// A blank or a comment.
    Gap(usize),
    Token(Token, usize),
    /// How many bytes stand before the first that is out of place.
    BadByte(usize),
    /// A number that is too large.
    BadNumber,
}

/// How many bytes follow the opening of a comment, up to its end.
#[tactic(auto, using(crate::proofs::Scanning::comment_opens, crate::proofs::Scanning::comment_closes, crate::proofs::Scanning::comment_goes, crate::proofs::Scanning::comment_ends, crate::proofs::Scanning::comment_cut))]
fn comment_length(rest: &[u8]) -> Option<usize>
    ensures length { result ≡ comment_length 1 rest.now }
    ensures within { IfSome result (λ n. n ≤ length rest.now) }
{
    let mut depth: usize = 1;
    let mut at = 0;
    while at + 1 < rest.len() {
        let byte = rest[at];
        let next = rest[at + 1];
        if byte == b'(' && next == b'*' {
            depth += 1;
            at += 2;
        } else if byte == b'*' && next == b')' {
            at += 2;
            if depth == 1 {
                return Some(at);
            }
            depth -= 1;
        } else {
            at += 1;
        }
    }
    None
}

/// The length of the name or keyword at the head.
fn name_length(rest: &[u8]) -> usize
    ensures length { result ≡ length (take_while is_name_byte rest.now) }
{
    rest.iter()
        .take_while(|byte| alphabet::is_name_byte(**byte))
        .count()
}

/// The length of the number at the head.
fn digits_length(rest: &[u8]) -> usize
    ensures length { result ≡ length (take_while is_digit rest.now) }
{
    rest.iter().take_while(|byte| is_digit(**byte)).count()
}

/// A comment, after its opening.
fn comment_lexeme(rest: &[u8]) -> Lexeme
    requires { 2 ≤ length rest.now }
    ensures lexeme { result ≡ comment_lexeme (comment_length 1 (drop 2 rest.now)) }
    ensures fits { Fits result (length rest.now) }
{
    match comment_length(&rest[2..]) {
        None => Lexeme::BadByte(0),
        Some(length) => Lexeme::Gap(2 + length),
    }
}

/// A keyword, or else a name.
fn word_or_name(alloc: Global, text: &[u8]) -> Result<Token, AllocError>
    requires first { is_letter (slice_index text.now 0) ≡ true }
    requires all { AllPass is_name_byte text.now }
    ensures token { IfOk result (λ t. t ≡ word_or_name text.now (place_of text.now keywords)) }
    ensures form { IfOk result (λ t. IsToken t) }
{
    match alphabet::keyword(text) {
        Some(place) => Ok(Token::Word(place)),
        None => Ok(Token::Name(Text::of(alloc, text)?)),
    }
}

/// A name or a keyword.
#[tactic(auto, using(crate::proofs::Lexemes::name_fits))]
fn name_lexeme(alloc: Global, rest: &[u8]) -> Result<Lexeme, AllocError>
    requires { is_letter (slice_index rest.now 0) ≡ true }
    ensures lexeme { IfOk result (λ x. x ≡ name_lexeme (take_while is_name_byte rest.now)) }
    ensures fits { IfOk result (λ x. Fits x (length rest.now)) }
{
    let length = name_length(rest);
    let token = word_or_name(alloc, &rest[..length])?;
    Ok(Lexeme::Token(token, length))
}

/// A number.
#[tactic(auto, using(crate::proofs::Lexemes::digits_pass, crate::proofs::Lexemes::digits_fit))]
fn number_lexeme(rest: &[u8]) -> Lexeme
    requires { is_digit (slice_index rest.now 0) ≡ true }
    ensures lexeme { result ≡ number_lexeme (take_while is_digit rest.now) }
    ensures fits { Fits result (length rest.now) }
{
    let length = digits_length(rest);
    match value_within(&rest[..length], LARGEST) {
        Some(value) => Lexeme::Token(Token::Number(value), length),
        None => Lexeme::BadNumber,
    }
}

/// A text literal.
fn literal_lexeme(alloc: Global, rest: &[u8]) -> Result<Lexeme, AllocError>
    requires { 1 ≤ length rest.now }
    ensures lexeme { IfOk result (λ x. x ≡ literal_lexeme (quoted (drop 1 rest.now))) }
    ensures fits { IfOk result (λ x. Fits x (length rest.now)) }
{
    match read_quoted(alloc, &rest[1..])? {
        Quoted::Closed(value, length) => Ok(Lexeme::Token(Token::Literal(value), 1 + length)),
        Quoted::Broken(length) => Ok(Lexeme::BadByte(1 + length)),
    }
}

/// A symbol, or a byte that begins no lexeme.
#[tactic(auto, using(crate::proofs::Lexemes::two_within))]
fn symbol_lexeme(rest: &[u8]) -> Lexeme
    requires { 1 ≤ length rest.now }
    ensures lexeme { result ≡ symbol_lexeme (place_of (slice_index rest.now 0 ∷ slice_index rest.now 1 ∷ []) symbols) (place_of (slice_index rest.now 0 ∷ []) symbols) }
    ensures fits { Fits result (length rest.now) }
{
    if let Some(place) = alphabet::symbol(&[byte_at(rest, 0), byte_at(rest, 1)]) {
        return Lexeme::Token(Token::Sign(place), 2);
    }
    match alphabet::symbol(&[byte_at(rest, 0)]) {
        Some(place) => Lexeme::Token(Token::Sign(place), 1),
        None => Lexeme::BadByte(0),
    }
}

/// The lexeme at the head of a rest that is not empty.
#[tactic(auto, unfolding(crate::specs::Lexeme::lexeme))]
pub(crate) fn read_lexeme(alloc: Global, rest: &[u8]) -> Result<Lexeme, AllocError>
    requires { 1 ≤ length rest.now }
    ensures lexeme { IfOk result (λ x. x ≡ lexeme rest.now) }
    ensures fits { IfOk result (λ x. Fits x (length rest.now)) }
{
    let first = rest[0];
    if alphabet::is_blank(first) {
        Ok(Lexeme::Gap(1))
    } else if first == b'(' && byte_at(rest, 1) == b'*' {
        Ok(comment_lexeme(rest))
    } else if alphabet::is_letter(first) {
        name_lexeme(alloc, rest)
    } else if is_digit(first) {
        Ok(number_lexeme(rest))
    } else if first == b'"' {
        literal_lexeme(alloc, rest)
    } else {
        Ok(symbol_lexeme(rest))
    }
}
