//! The declarations of a text, and what is refused of them before any is walked.

ghost use Rattle.std.specs.Prelude.{◌≡◌, ◌≤◌, ◌<◌, [], ◌∷◌, ◌++◌, false, not, length, IfOk, IfErr, IfSome, OnOk};
ghost use Rattle.std.specs.List.{list_any, take_while};
ghost use Rattle.std.specs.Str.{bytes_eq};
ghost use Rattle.std.specs.Option.{option_map};
ghost use Rattle.m5_terms.specs.Outcome.{found, IsFault};
ghost use Rattle.m5_lex.specs.declared.place.Place.{Place as PlaceOf};
ghost use Rattle.m5_poly.specs.Roles.{begins};
ghost use Rattle.m5_poly.specs.Survey.{listed, heading, heading_after, sections_of, surveyed, first_quoted, tilde_length};
ghost use Rattle.m5_poly.specs.Survey.{generic as generic_heading, plain};
ghost use Rattle.m5_poly.specs.code.Surveying.{listed_of, heading_as, survey_of, AreNamed, IsWithin, Continues, Refuses};
ghost use Rattle.m5_poly.specs.code.Views.{generic_of};

use crate::end::PolyEnd;
use crate::item::Item;
use crate::name::Name;
use crate::names::Names;
use crate::role::{CLOSING, COMMA, FUN, OPENING, TILDE, begins, is_quoted, is_sign, is_word};
use crate::sections::{Generic, Sections};
use m5_lex::{Place, Token};
use std::alloc::{AllocError, Global};

/// Variables and what follows their list.
#[derive(Drop)]
struct Listed<'a, 't> {
    variables: Names,
    rest: &'a [Item<'t>],
}

/// The sections so far, none in place of a generic declaration that has a name, and these declarations with their names.
#[derive(Drop)]
struct Survey<'a, 't> {
    sections: Vec<Option<&'a [Item<'t>]>>,
    generics: Vec<Generic<'a, 't>>,
    names: Names,
}

impl<'a, 't> Survey<'a, 't> {
    /// Adds a section that is no generic declaration.
    fn push_plain(&mut self, section: &'a [Item<'t>]) -> Result<(), AllocError>
        ensures ok { OnOk result (survey_of self.new ≡ record { sections = (survey_of self.old).sections ++ Some section.now ∷ []; generics = (survey_of self.old).generics }) }
        ensures names { self.new.names ≡ self.old.names }
    {
        self.sections.push(Some(section))?;
        Ok(())
    }

    /// Adds a generic declaration of a new name.
    fn push_generic(&mut self, alloc: Global, generic: Generic<'a, 't>) -> Result<(), AllocError>
        requires names { AreNamed self.old }
        requires new { list_any (bytes_eq generic.name) self.old.names ≡ false }
        ensures names { OnOk result (AreNamed self.new) }
        ensures ok { OnOk result (survey_of self.new ≡ record { sections = (survey_of self.old).sections ++ None ∷ []; generics = (survey_of self.old).generics ++ generic_of generic.entry ∷ [] }) }
    {
        self.names.add(alloc, generic.name.bytes())?;
        self.generics.push(generic)?;
        self.sections.push(None)?;
        Ok(())
    }
}

/// How a section begins.
#[derive(Drop)]
enum Heading<'a, 't> {
    /// As no generic declaration does.
    Plain,
    /// With a bad list of variables.
    Bad(Place),
    /// With a list, and no name behind it.
    Nameless,
    Generic(Generic<'a, 't>),
}

/// The variables of the list that stands here, and what follows it; none where they are not all different or the list is
/// not ended by `]`.
fn listed_in<'a, 't>(
    alloc: Global,
    tokens: &'a [Item<'t>],
) -> Result<Option<Listed<'a, 't>>, AllocError>
    ensures listed { IfOk result (λ o. option_map listed_of o ≡ listed [] tokens.now) }
    ensures within { IfOk result (λ o. IfSome o (λ l. length l.rest.now ≤ length tokens.now)) }
{
    let mut variables = Names::make(alloc);
    let mut at = 0;
    'variables: while at + 1 < tokens.len() {
        let Token::Name(name) = tokens[at].token() else {
            return Ok(None);
        };
        let added = variables.add(alloc, name.bytes())?;
        if !added {
            return Ok(None);
        }
        let next = tokens[at + 1].token();
        at += 2;
        if is_sign(next, CLOSING) {
            return Ok(Some(Listed {
                variables,
                rest: &tokens[at..],
            }));
        }
        if !is_sign(next, COMMA) {
            return Ok(None);
        }
    }
    Ok(None)
}

/// How many tokens a `~` at the head takes.
fn tilde_length(tokens: &[Item]) -> usize
    ensures length { result ≡ tilde_length tokens.now }
    ensures within { result ≤ length tokens.now }
{
    match tokens {
        [first, ..] if is_sign(first.token(), TILDE) => 1,
        _ => 0,
    }
}

/// How a section goes on behind its list of variables.
fn heading_after<'a, 't>(section: &'a [Item<'t>], list: Listed<'a, 't>) -> Heading<'a, 't>
    requires { length list.rest.now < length section.now }
    ensures heading { (at : PlaceOf) → heading_as result ≡ heading_after at section.now (Some (listed_of list.entry)) }
    ensures within { IsWithin result (length section.now) }
{
    let (tilde, named) = list.rest.split_at(tilde_length(list.rest));
    let Some((own, rest)) = named.split_first() else {
        return Heading::Nameless;
    };
    match Name::of(own.token()) {
        Some(name) => Heading::Generic(Generic {
            mark: &section[..1],
            variables: list.variables,
            tilde,
            own,
            name,
            rest,
        }),
        None => Heading::Nameless,
    }
}

/// How a section begins.
fn heading_of<'a, 't>(alloc: Global, section: &'a [Item<'t>]) -> Result<Heading<'a, 't>, AllocError>
    ensures heading { IfOk result (λ h. heading_as h ≡ heading section.now) }
    ensures within { IfOk result (λ h. IsWithin h (length section.now)) }
{
    let Some((first, after)) = section.split_first() else {
        return Ok(Heading::Plain);
    };
    let Some((second, more)) = after.split_first() else {
        return Ok(Heading::Plain);
    };
    let mark = first.token();
    let bracket = second.token();
    if !is_word(mark, FUN) || !is_sign(bracket, OPENING) {
        return Ok(Heading::Plain);
    }
    match listed_in(alloc, more)? {
        Some(list) => Ok(heading_after(section, list)),
        None => Ok(Heading::Bad(first.place())),
    }
}

/// The place of the first name that holds `''`.
fn first_quoted(tokens: &[Item]) -> Option<Place>
    ensures { result ≡ first_quoted tokens.now }
{
    for placed in tokens {
        if is_quoted(placed.token()) {
            return Some(placed.place());
        }
    }
    None
}

/// Adds a section that is no generic declaration.
#[tactic(auto, using(crate::proofs::Surveying::plain_continues, crate::proofs::Surveying::plain_refuses, crate::proofs::Surveying::memory_refuses))]
fn add_plain<'a, 't>(text: &mut Survey<'a, 't>, section: &'a [Item<'t>]) -> Result<(), PolyEnd>
    requires heading { heading section.now ≡ plain }
    requires names { AreNamed text.old }
    ensures names { OnOk result (AreNamed text.new) }
    ensures ok { OnOk result (Continues (survey_of text.old) section.now (survey_of text.new)) }
    ensures err { IfErr result (Refuses (survey_of text.old) section.now) }
{
    if let Some(place) = first_quoted(section) {
        return Err(PolyEnd::Generic(place));
    }
    text.push_plain(section)?;
    Ok(())
}

/// Adds a generic declaration, unless one has its name.
#[tactic(auto, using(crate::proofs::Surveying::generic_continues, crate::proofs::Surveying::generic_refuses, crate::proofs::Surveying::again_refuses, crate::proofs::Surveying::repeated_refuses, crate::proofs::Surveying::memory_refuses))]
fn add_generic<'a, 't>(
    alloc: Global,
    text: &mut Survey<'a, 't>,
    section: &'a [Item<'t>],
    generic: Generic<'a, 't>,
) -> Result<(), PolyEnd>
    requires heading { heading section.now ≡ generic_heading (generic_of generic) }
    requires within { length generic.rest.now ≤ length section.now }
    requires names { AreNamed text.old }
    ensures names { OnOk result (AreNamed text.new) }
    ensures ok { OnOk result (Continues (survey_of text.old) section.now (survey_of text.new)) }
    ensures err { IfErr result (Refuses (survey_of text.old) section.now) }
{
    if text.names.has(generic.name.bytes()) {
        let head = &section[..section.len() - generic.rest.len()];
        return match first_quoted(head) {
            Some(place) => Err(PolyEnd::Generic(place)),
            None => Err(PolyEnd::Repeated(generic.own.place())),
        };
    }
    if let Some(place) = first_quoted(section) {
        return Err(PolyEnd::Generic(place));
    }
    text.push_generic(alloc, generic)?;
    Ok(())
}

/// Adds a section.
#[tactic(auto, using(crate::proofs::Surveying::nameless_continues, crate::proofs::Surveying::nameless_refuses, crate::proofs::Surveying::bad_refuses, crate::proofs::Surveying::memory_refuses))]
fn add<'a, 't>(
    alloc: Global,
    text: &mut Survey<'a, 't>,
    section: &'a [Item<'t>],
) -> Result<(), PolyEnd>
    requires names { AreNamed text.old }
    ensures names { OnOk result (AreNamed text.new) }
    ensures ok { OnOk result (Continues (survey_of text.old) section.now (survey_of text.new)) }
    ensures err { IfErr result (Refuses (survey_of text.old) section.now) }
{
    match heading_of(alloc, section)? {
        Heading::Plain => add_plain(text, section),
        Heading::Bad(place) => Err(PolyEnd::Generic(place)),
        Heading::Nameless => match first_quoted(section) {
            Some(place) => Err(PolyEnd::Generic(place)),
            None => Ok(()),
        },
        Heading::Generic(generic) => add_generic(alloc, text, section, generic),
    }
}

/// How many tokens stand before the next `fun` or `main`.
fn length_of(tokens: &[Item]) -> usize
    ensures length { result ≡ length (take_while (λ p. not (begins p.token)) tokens.now) }
    ensures within { result ≤ length tokens.now }
{
    tokens
        .iter()
        .take_while(|placed| !begins(placed.token()))
        .count()
}

/// The sections of a text and its generic declarations, or the first refusal from the left.
pub(crate) fn surveyed_text<'a, 't>(
    alloc: Global,
    tokens: &'a [Item<'t>],
) -> Result<Sections<'a, 't>, PolyEnd>
    ensures found { IfOk result (λ text. surveyed [] (sections_of tokens.now) ≡ found text) }
    ensures fault { IfErr result (IsFault PolyEnd.Memory (surveyed [] (sections_of tokens.now))) }
{
    let mut text = Survey {
        sections: Vec::new(alloc),
        generics: Vec::new(alloc),
        names: Names::make(alloc),
    };
    let (before, following) = tokens.split_at(length_of(tokens));
    if let Err(end) = add(alloc, &mut text, before) {
        return Err(end);
    }
    let mut rest = following;
    'sections: while let Some((_, more)) = rest.split_first() {
        let (section, others) = rest.split_at(1 + length_of(more));
        if let Err(end) = add(alloc, &mut text, section) {
            return Err(end);
        }
        rest = others;
    }
    let Survey {
        sections,
        generics,
        names,
    } = text;
    Ok(Sections::of(sections, generics, names))
}
