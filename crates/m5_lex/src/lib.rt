//! The lexical form: a text as its tokens, each with its place, or the place of its first fault.
#![tactic(auto)]

mod alphabet;
pub mod lexed;
mod lexeme;
pub mod place;
pub mod shown;
pub mod token;
pub mod tokens;

pub use lexed::{LexEnd, lex};
pub use place::Place;
pub use shown::show;
pub use token::Token;
pub use tokens::Tokens;
