//! The expansion of a text.

ghost use Rattle.std.specs.Prelude.{◌≡◌, IfOk, IfErr, MatchResult};
ghost use Rattle.m5_terms.specs.Outcome.{found, IsFault};
ghost use Rattle.m5_poly.specs.Plain.{IsPlain};
ghost use Rattle.m5_poly.specs.Expansion.{sections_written, expanded_from, expanded};

use crate::end::PolyEnd;
use crate::instances::Instances;
use crate::item::{Item, items_of};
use crate::sections::Sections;
use crate::survey::surveyed_text;
use crate::walk::walk_sections;
use crate::write::{Source, write_sections};
use m5_lex::{Place, Tokens};
use std::alloc::{AllocError, Global};

/// The tokens that are written of a text and its instances.
fn written_text(
    alloc: Global,
    text: &Sections,
    made: &Instances,
    ending: Place,
) -> Result<Tokens, AllocError>
    ensures { IfOk result (λ out. out ≡ record { tokens = sections_written text.now.generics made.now 0 text.now.sections; ending = ending }) }
{
    let mut out = Tokens::make(alloc, ending);
    let source = Source { text, made };
    write_sections(alloc, &mut out, &source)?;
    Ok(out)
}

/// The expansion of a text that was surveyed.
fn expanded_text(alloc: Global, text: &Sections, ending: Place) -> Result<Tokens, PolyEnd>
    ensures found { IfOk result (λ out. expanded_from ending text.now ≡ found out) }
    ensures fault { IfErr result (IsFault PolyEnd.Memory (expanded_from ending text.now)) }
{
    match walk_sections(alloc, text) {
        Ok(state) => Ok(written_text(alloc, text, &state.made, ending)?),
        Err(end) => Err(end),
    }
}

/// The expansion of a text of these tokens.
#[tactic(auto, unfolding(crate::specs::Expansion::expanded))]
fn expanded_tokens(alloc: Global, tokens: &[Item], ending: Place) -> Result<Tokens, PolyEnd>
    ensures found { IfOk result (λ out. expanded (record { tokens = tokens.now; ending = ending }) ≡ found out) }
    ensures fault { IfErr result (IsFault PolyEnd.Memory (expanded (record { tokens = tokens.now; ending = ending }))) }
{
    match surveyed_text(alloc, tokens) {
        Ok(text) => expanded_text(alloc, &text, ending),
        Err(end) => Err(end),
    }
}

/// The expansion of tokens.
fn expanded_listing(alloc: Global, tokens: &Tokens) -> Result<Tokens, PolyEnd>
    ensures found { IfOk result (λ out. expanded tokens.now ≡ found out) }
    ensures fault { IfErr result (IsFault PolyEnd.Memory (expanded tokens.now)) }
{
    let items = items_of(alloc, tokens)?;
    expanded_tokens(alloc, items.as_slice(), tokens.ending())
}

/// The tokens with each instance of a generic declaration written out at its place, each with its own place, or with that of
/// the variable for which it stands; else the first refusal: of names and lists of variables over the whole text, and else of
/// the walk over it.
pub fn expand(alloc: Global, tokens: &Tokens) -> Result<Tokens, PolyEnd>
    ensures found { IfOk result (λ out. expanded tokens.now ≡ found out) }
    ensures fault { IfErr result (IsFault PolyEnd.Memory (expanded tokens.now)) }
    // A text without generic declarations and uses stays as it is.
    ensures law { IsPlain tokens.now.tokens → MatchResult result (λ out. out ≡ tokens.now) (λ e. e ≡ PolyEnd.Memory) }
{
    expanded_listing(alloc, tokens)
}
