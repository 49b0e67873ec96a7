//! Tokens as a text that lexes to them.

ghost use Rattle.std.specs.Prelude.{◌≡◌, ◌++◌, OnOk, IfOk};
ghost use Rattle.std.specs.List.{All, flat_map};
ghost use Rattle.m5_lex.specs.Shown.{spelling, begins_line, parted, shown, tokens_of, LexesBack};
ghost use Rattle.m5_lex.specs.Token.{IsToken};

use crate::alphabet;
use crate::token::Token;
use crate::tokens::{Placed, Tokens};
use m5_terms::decimal::put_number;
use m5_terms::quoted::put_quoted;
use m5_terms::text::Text;
use std::alloc::{AllocError, Global};

/// Adds a token.
fn put_token(alloc: Global, out: &mut Vec<u8>, token: &Token) -> Result<(), AllocError>
    requires { IsToken token.now }
    ensures { OnOk result (out.new.items ≡ out.old.items ++ spelling token.now) }
{
    match token {
        Token::Name(name) => out.extend_from_slice(name.bytes()),
        Token::Number(number) => put_number(alloc, out, *number),
        Token::Literal(text) => put_quoted(out, text),
        Token::Word(place) => out.extend_from_slice(alphabet::keyword_at(*place)),
        Token::Sign(place) => out.extend_from_slice(alphabet::symbol_at(*place)),
    }
}

/// Whether the token is `extern`, `fun` or `main`.
fn begins_line(token: &Token) -> bool
    ensures { result ≡ begins_line token.now }
{
    matches!(token, Token::Word(0 | 2 | 3))
}

/// Adds a token that follows another.
fn put_parted(alloc: Global, out: &mut Vec<u8>, token: &Token) -> Result<(), AllocError>
    requires { IsToken token.now }
    ensures { OnOk result (out.new.items ≡ out.old.items ++ parted token.now) }
{
    out.push(if begins_line(token) { b'\n' } else { b' ' })?;
    put_token(alloc, out, token)
}

/// Adds the tokens that follow the first.
fn put_following(alloc: Global, out: &mut Vec<u8>, tokens: &[Placed]) -> Result<(), AllocError>
    requires { All (λ p. IsToken p.token) tokens.now }
    ensures { OnOk result (out.new.items ≡ out.old.items ++ flat_map parted (tokens_of tokens.now)) }
{
    for placed in tokens {
        put_parted(alloc, out, &placed.token)?;
    }
    Ok(())
}

/// Adds all tokens.
fn put_tokens(alloc: Global, out: &mut Vec<u8>, tokens: &[Placed]) -> Result<(), AllocError>
    requires { All (λ p. IsToken p.token) tokens.now }
    ensures { OnOk result (out.new.items ≡ out.old.items ++ shown (tokens_of tokens.now)) }
{
    let Some((first, rest)) = tokens.split_first() else {
        return Ok(());
    };
    put_token(alloc, out, &first.token)?;
    put_following(alloc, out, rest)?;
    out.push(b'\n')?;
    Ok(())
}

/// The tokens as a text: a line feed stands before `extern`, `fun` and `main`, a blank before each
/// other token, neither before the first, and a line feed after the last. Numbers are decimal.
#[tactic(auto, using(crate::proofs::Showing::shown_lexes))]
pub fn show(alloc: Global, tokens: &Tokens) -> Result<Text, AllocError>
    ensures text { IfOk result (λ text. text ≡ shown (tokens_of tokens.now.tokens)) }
    // It lexes, and to the same tokens.
    ensures law { IfOk result (λ text. LexesBack text (tokens_of tokens.now.tokens)) }
{
    let mut out = Vec::new(alloc);
    put_tokens(alloc, &mut out, tokens.as_checked())?;
    Text::of(alloc, &out)
}
