//! The tokens of a text, each known to be one of the lexical form.

ghost use Rattle.std.specs.Prelude.{◌≡◌, IfOk};
ghost use Rattle.m5_lex.specs.Token.{IsToken};

use m5_lex::{Place, Token, Tokens};
use std::alloc::{AllocError, Global};
use std::marker::Model;

/// A token of a text, with its place.
#[derive(Drop)]
pub(crate) struct Item<'t> {
    held: &'t Token,
    at: Place,
}

impl<'t> Model for Item<'t> {
    ghost use Rattle.m5_lex.specs.Token.{IsToken};
    ghost use Rattle.m5_lex.specs.declared.tokens.Placed.{Placed};

    ghost Value = { Placed };

    ghost view = { λ i. record { token = i.held.now; place = i.at } };

    ghost invariant = { λ i. IsToken i.held.now };
}

impl<'t> Item<'t> {
    fn of(token: &'t Token, place: Place) -> Item<'t>
        requires { IsToken token.now }
        ensures { result ≡ record { token = token.now; place = place } }
    {
        Item {
            held: token,
            at: place,
        }
    }

    pub(crate) fn token(&self) -> &'t Token
        ensures token { result.now ≡ self.now.token }
        ensures form { IsToken result.now }
    {
        self.held
    }

    pub(crate) fn place(&self) -> Place
        ensures { result ≡ self.now.place }
    {
        self.at
    }
}

/// The tokens in order.
pub(crate) fn items_of<'t>(alloc: Global, tokens: &'t Tokens) -> Result<Vec<Item<'t>>, AllocError>
    ensures { IfOk result (λ v. v.items ≡ tokens.now.tokens) }
{
    let mut items = Vec::new(alloc);
    for index in 0..tokens.count() {
        items.push(Item::of(tokens.at(index), tokens.place(index)))?;
    }
    Ok(items)
}
