//! A list of tokens with their places.

ghost use Rattle.std.specs.Prelude.{◌≡◌, ◌<◌, [], ◌∷◌, ◌++◌, length, OnOk, OnErr};
ghost use Rattle.std.specs.List.{HoldsAt};
ghost use Rattle.m5_lex.specs.Token.{IsToken};

use crate::place::Place;
use crate::token::Token;
use std::alloc::{AllocError, Global};
use std::marker::Model;

/// A token and the place of its first byte.
#[derive(Debug, Drop)]
pub struct Placed {
    pub token: Token,
    pub place: Place,
}

/// The tokens of a text in order, each with its place, and the place after the last byte.
#[derive(Debug, Drop)]
pub struct Tokens {
    held: Vec<Placed>,
    ending: Place,
}

impl Model for Tokens {
    ghost use Rattle.m5_lex.specs.Tokens.{Listing, AreTokens};

    ghost Value = { Listing };

    ghost view = { λ t. record { tokens = t.held.items; ending = t.ending } };

    ghost invariant = { λ t. AreTokens t.held.items };
}

impl Tokens {
    ghost use Rattle.m5_lex.specs.Tokens.{AreTokens};

    /// No tokens yet, in a text that ends at this place.
    pub fn make(alloc: Global, ending: Place) -> Tokens
        ensures tokens { result.tokens ≡ [] }
        ensures ending { result.ending ≡ ending }
    {
        Tokens {
            held: Vec::new(alloc),
            ending,
        }
    }

    /// Puts a token at the end.
    pub fn push(&mut self, token: Token, place: Place) -> Result<(), AllocError>
        requires token { IsToken token }
        requires room { length self.old.tokens < 4294967295 }
        ensures ok { OnOk result (self.new ≡ record self.old { tokens = self.old.tokens ++ record { token = token; place = place } ∷ [] }) }
        ensures err { OnErr result (self.new ≡ self.old) }
    {
        self.held.push(Placed { token, place })?;
        Ok(())
    }

    /// The tokens in order, each with its place.
    pub fn as_slice(&self) -> &[Placed]
        ensures { result.now ≡ self.now.tokens }
    {
        self.held.as_slice()
    }

    /// The same, where it matters that each is a token of the lexical form.
    pub(crate) fn as_checked(&self) -> &[Placed]
        ensures tokens { result.now ≡ self.now.tokens }
        ensures form { AreTokens result.now }
    {
        self.held.as_slice()
    }

    /// How many tokens there are.
    pub fn count(&self) -> u32
        ensures { result ≡ length self.now.tokens }
    {
        self.held.len() as u32
    }

    /// The token at an index.
    pub fn at(&self, index: u32) -> &Token
        requires { index < length self.now.tokens }
        ensures token { HoldsAt (λ p. p.token ≡ result.now) self.now.tokens index }
        ensures form { IsToken result.now }
    {
        &self.held[index as usize].token
    }

    /// The place of the token at an index.
    pub fn place(&self, index: u32) -> Place
        requires { index < length self.now.tokens }
        ensures { HoldsAt (λ p. p.place ≡ result) self.now.tokens index }
    {
        self.held[index as usize].place
    }

    /// The place after the last byte.
    pub fn ending(&self) -> Place
        ensures { result ≡ self.now.ending }
    {
        self.ending
    }
}
