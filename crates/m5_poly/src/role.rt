//! What a token is where declarations, variables and types are read.

ghost use Rattle.std.specs.Prelude.{◌≡◌};
ghost use Rattle.m5_poly.specs.Roles.{is_word, is_sign, begins, has_quotes, is_quoted, name_place, word_role, sign_role, role};

use crate::names::Names;
use m5_lex::Token;

pub(crate) const FUN: u8 = 2;

pub(crate) const MAIN: u8 = 3;

pub(crate) const OPENING: u8 = 2;

pub(crate) const CLOSING: u8 = 3;

pub(crate) const COMMA: u8 = 4;

pub(crate) const TILDE: u8 = 20;

/// What a token is in a list of types.
#[derive(Clone, Copy, Debug, PartialEq, Eq)]
pub(crate) enum Role {
    /// `(`
    Open,
    /// `)`
    Close,
    /// `sham`
    Prefix,
    /// A base type, or a variable.
    Base,
    /// A world.
    World,
    /// `addr`
    Addr,
    /// `list` or `ref`
    Suffix,
    /// `at`
    At,
    /// `->`, `+` or `*`
    Infix,
    /// `,`
    Comma,
    /// `]`
    Closing,
    Other,
}

pub(crate) fn is_word(token: &Token, keyword: u8) -> bool
    ensures { result ≡ is_word keyword token.now }
{
    match token {
        Token::Word(place) => *place == keyword,
        _ => false,
    }
}

pub(crate) fn is_sign(token: &Token, symbol: u8) -> bool
    ensures { result ≡ is_sign symbol token.now }
{
    match token {
        Token::Sign(place) => *place == symbol,
        _ => false,
    }
}

/// Whether the token is `fun` or `main`.
pub(crate) fn begins(token: &Token) -> bool
    ensures { result ≡ begins token.now }
{
    is_word(token, FUN) || is_word(token, MAIN)
}

/// Whether a name holds `''`.
#[tactic(auto, using(crate::proofs::Reading::few_quotes))]
fn has_quotes(name: &[u8]) -> bool
    ensures { result ≡ has_quotes name.now }
{
    let mut rest = name;
    while let [first, second, ..] = rest {
        if *first == b'\'' && *second == b'\'' {
            return true;
        }
        rest = &rest[1..];
    }
    false
}

/// Whether the token is a name that holds `''`.
pub(crate) fn is_quoted(token: &Token) -> bool
    ensures { result ≡ is_quoted token.now }
{
    match token {
        Token::Name(name) => has_quotes(name.bytes()),
        _ => false,
    }
}

/// The place of a token among these names, if it is one.
pub(crate) fn name_place(names: &Names, token: &Token) -> Option<usize>
    ensures { result ≡ name_place names.now token.now }
{
    match token {
        Token::Name(name) => names.place(name.bytes()),
        _ => None,
    }
}

fn word_role(place: u8) -> Role
    ensures { result ≡ word_role place }
{
    match place {
        26 => Role::Prefix,
        29 | 36 => Role::Suffix,
        34 => Role::At,
        35 => Role::Addr,
        37..=40 => Role::Base,
        41..=43 => Role::World,
        _ => Role::Other,
    }
}

fn sign_role(place: u8) -> Role
    ensures { result ≡ sign_role place }
{
    match place {
        0 => Role::Open,
        1 => Role::Close,
        CLOSING => Role::Closing,
        COMMA => Role::Comma,
        11 | 13 | 14 => Role::Infix,
        _ => Role::Other,
    }
}

/// What a token is in a list of types with these variables.
pub(crate) fn role_of(variables: &Names, token: &Token) -> Role
    ensures { result ≡ role variables.now token.now }
{
    match token {
        Token::Word(place) => word_role(*place),
        Token::Sign(place) => sign_role(*place),
        _ => match name_place(variables, token) {
            Some(_) => Role::Base,
            None => Role::Other,
        },
    }
}
