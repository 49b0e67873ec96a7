//! Names of a text, each known to be one.

ghost use Rattle.std.specs.Prelude.{◌≡◌};
ghost use Rattle.m5_lex.specs.Token.{IsName, IsToken};
ghost use Rattle.m5_poly.specs.Roles.{name_in};

use m5_lex::Token;
use std::marker::Model;

/// The bytes of a name.
#[derive(Drop)]
pub(crate) struct Name<'t> {
    held: &'t [u8],
}

impl<'t> Model for Name<'t> {
    ghost use Rattle.std.specs.Prelude.{List, ℕ};
    ghost use Rattle.m5_lex.specs.Token.{IsName};

    ghost Value = { List ℕ };

    ghost view = { λ n. n.held.now };

    ghost invariant = { λ n. IsName n.held.now };
}

impl<'t> Name<'t> {
    /// The name that a token is, if it is one.
    pub(crate) fn of(token: &'t Token) -> Option<Name<'t>>
        requires { IsToken token.now }
        ensures { result ≡ name_in token.now }
    {
        match token {
            Token::Name(name) => Some(Name { held: name.bytes() }),
            _ => None,
        }
    }

    pub(crate) fn bytes(&self) -> &'t [u8]
        ensures bytes { result.now ≡ self.now }
        ensures form { IsName result.now }
    {
        self.held
    }
}
