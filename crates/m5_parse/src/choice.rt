//! The production that the next token picks.

ghost use Rattle.std.specs.Prelude.{◌≡◌, map};
ghost use Rattle.m5_parse.specs.Rows.{choose, pick_row};

use crate::code::leads_with;
use crate::table::{Production, productions};
use m5_lex::tokens::Placed;
use m5_tree::grammar::{Phrase, Symbol};

/// The first production that the next token begins, else the last one.
fn picked(rest: &[Placed], table: &'static [Production]) -> &'static [Symbol]
    ensures { result.now ≡ pick_row rest.now (map (λ p. (p.first.now, p.symbols.now)) table.now) }
{
    match table.split_first() {
        None => &[],
        Some((production, others)) => if others.is_empty() || leads_with(rest, production.first) {
            production.symbols
        } else {
            picked(rest, others)
        },
    }
}

/// The production of a phrase that the next token picks.
pub(crate) fn choice(phrase: Phrase, rest: &[Placed]) -> &'static [Symbol]
    ensures { result.now ≡ choose phrase rest.now }
{
    picked(rest, productions(phrase))
}
