//! Tokens.

ghost use Rattle.std.specs.Prelude.{◌≡◌, IfOk};

use m5_terms::text::Text;
use std::alloc::{AllocError, Global};

/// A token: a keyword or a symbol is its place, from 0, in the list of keywords or of symbols.
#[derive(Debug, Drop)]
pub enum Token {
    Name(Text),
    Number(u64),
    Literal(Text),
    Word(u8),
    Sign(u8),
}

impl Token {
    /// A copy of the token.
    pub fn copy(&self, alloc: Global) -> Result<Token, AllocError>
        ensures { IfOk result (λ t. t ≡ self.now) }
    {
        match self {
            Token::Name(name) => Ok(Token::Name(name.copy(alloc)?)),
            Token::Number(number) => Ok(Token::Number(*number)),
            Token::Literal(text) => Ok(Token::Literal(text.copy(alloc)?)),
            Token::Word(place) => Ok(Token::Word(*place)),
            Token::Sign(place) => Ok(Token::Sign(*place)),
        }
    }
}
