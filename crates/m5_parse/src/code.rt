//! The numbers of kinds of token.

ghost use Rattle.std.specs.Prelude.{◌≡◌};
ghost use Rattle.m5_tree.specs.Kinds.{token_code};
ghost use Rattle.m5_parse.specs.Kinds.{among, leads};

use m5_lex::Token;
use m5_lex::tokens::Placed;
use m5_tree::grammar::Kind;

fn token_code(token: &Token) -> u8
    ensures { result ≡ token_code token.now }
{
    match token {
        Token::Name(_) => 0,
        Token::Number(_) => 1,
        Token::Literal(_) => 2,
        Token::Word(place) => if *place < 44 { 3 + *place } else { 255 },
        Token::Sign(place) => if *place < 21 { 47 + *place } else { 255 },
    }
}

/// Says whether one of the kinds has this number.
fn among_kinds(code: u8, kinds: &[Kind]) -> bool
    ensures { result ≡ among code kinds.now }
{
    kinds.iter().any(|kind| code == *kind as u8)
}

/// Says whether the first token is of one of these kinds.
pub(crate) fn leads_with(rest: &[Placed], kinds: &[Kind]) -> bool
    ensures { result ≡ leads rest.now kinds.now }
{
    match rest.split_first() {
        None => false,
        Some((first, _)) => among_kinds(token_code(&first.token), kinds),
    }
}
