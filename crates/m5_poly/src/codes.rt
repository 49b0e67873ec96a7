//! Types as the numbers of their keywords and symbols.

ghost use Rattle.std.specs.Prelude.{◌≡◌, ◌<◌, [], ◌∷◌, ◌++◌, IfOk, OnOk};
ghost use Rattle.std.specs.List.{All};
ghost use Rattle.m5_lex.specs.Token.{IsToken};
ghost use Rattle.m5_poly.specs.Roles.{code_of, token_of};

use m5_lex::Token;
use std::alloc::{AllocError, Global};
use std::marker::Model;

/// How many keywords there are: the symbols are numbered behind them.
pub(crate) const KEYWORDS: u8 = 44;
/// How many keywords and symbols there are.
pub(crate) const ALL: u8 = 65;

/// Keywords and symbols of a type, one byte each.
#[derive(Drop)]
pub(crate) struct Codes {
    held: Vec<u8>,
}

impl Model for Codes {
    ghost use Rattle.std.specs.Prelude.{List, ℕ, ◌<◌};
    ghost use Rattle.std.specs.List.{All};

    ghost Value = { List ℕ };

    ghost view = { λ c. c.held.items };

    ghost invariant = { λ c. All (λ x. x < 65) c.held.items };
}

impl Codes {
    pub(crate) fn make(alloc: Global) -> Codes
        ensures { result ≡ [] }
    {
        Codes {
            held: Vec::new(alloc),
        }
    }

    pub(crate) fn of(alloc: Global, codes: &[u8]) -> Result<Codes, AllocError>
        requires { All (λ c. c < 65) codes.now }
        ensures { IfOk result (λ c. c ≡ codes.now) }
    {
        Ok(Codes {
            held: Vec::from_slice(alloc, codes)?,
        })
    }

    pub(crate) fn push(&mut self, code: u8) -> Result<(), AllocError>
        requires { code < 65 }
        ensures { OnOk result (self.new ≡ self.old ++ code ∷ []) }
    {
        self.held.push(code)?;
        Ok(())
    }

    pub(crate) fn push_all(&mut self, codes: &[u8]) -> Result<(), AllocError>
        requires { All (λ c. c < 65) codes.now }
        ensures { OnOk result (self.new ≡ self.old ++ codes.now) }
    {
        self.held.extend_from_slice(codes)
    }

    pub(crate) fn as_slice(&self) -> &[u8]
        ensures codes { result.now ≡ self.now }
        ensures form { All (λ c. c < 65) result.now }
    {
        self.held.as_slice()
    }
}

/// The number of a keyword or a symbol.
#[tactic(auto, unfolding(m5_lex::specs::Alphabet::keywords, m5_lex::specs::Alphabet::symbols))]
pub(crate) fn code_of(token: &Token) -> u8
    requires { IsToken token.now }
    ensures code { result ≡ code_of token.now }
    ensures form { result < 65 }
{
    match token {
        Token::Word(place) => *place,
        Token::Sign(place) => KEYWORDS + *place,
        _ => 0,
    }
}

/// The keyword or the symbol with a number.
#[tactic(auto, unfolding(m5_lex::specs::Alphabet::keywords, m5_lex::specs::Alphabet::symbols))]
pub(crate) fn token_of(code: u8) -> Token
    requires { code < 65 }
    ensures token { result ≡ token_of code }
    ensures form { IsToken result }
{
    if code < KEYWORDS {
        Token::Word(code)
    } else {
        Token::Sign(code - KEYWORDS)
    }
}
