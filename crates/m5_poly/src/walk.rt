//! The walk over a text, which finds the instances of its generic declarations.

ghost use Rattle.std.specs.Prelude.{◌≡◌, ◌≤◌, ◌<◌, ◌+◌, ◌^◌, List, [], ◌∷◌, Option, true, drop, length, IfOk, IfErr, OnOk};
ghost use Rattle.std.specs.Option.{option_map};
ghost use Rattle.m5_terms.specs.Outcome.{found, fault, IsFault};
ghost use Rattle.m5_lex.specs.declared.tokens.Placed.{Placed as PlacedOf};
ghost use Rattle.m5_poly.specs.Uses.{may_use, outside};
ghost use Rattle.m5_poly.specs.Walk.{counted, all_counted, head, asked, sections_walked};
ghost use Rattle.m5_poly.specs.code.Views.{scope_of, bracketed_of, generic_of};
ghost use Rattle.m5_poly.specs.code.Walking.{use_of, state_of, walk_of, walked_here, used_here, made_here, instance_here};

use crate::codes::Codes;
use crate::end::PolyEnd;
use crate::instances::{Instance, Instances};
use crate::item::Item;
use crate::names::Names;
use crate::sections::{Generic, Sections};
use crate::uses::{Bracketed, Scope, arguments_of, key_of, reads, use_at};
use m5_lex::Place;
use std::alloc::{AllocError, Global};

/// The most tokens that are read.
const LIMIT: u64 = 4_194_304;
/// The most instances.
const INSTANCES: usize = 256;

/// How many tokens were read, and the instances so far.
#[derive(Drop)]
pub(crate) struct State {
    pub(crate) read: u64,
    pub(crate) made: Instances,
}

/// A use of a generic declaration.
#[derive(Drop)]
pub(crate) struct Use<'t> {
    pub(crate) generic: usize,
    pub(crate) name: &'t [u8],
    pub(crate) arguments: Vec<Codes>,
    pub(crate) place: Place,
}

/// Counts a token as what stands for it.
fn count(state: &mut State, scope: &Scope, placed: &Item) -> Result<(), PolyEnd>
    ensures ok { OnOk result (counted (scope_of scope.now) placed.now (state_of state.old) ≡ found (state_of state.new)) }
    ensures err { IfErr result (λ e. counted (scope_of scope.now) placed.now (state_of state.old) ≡ fault e) }
{
    let total = state.read.saturating_add(reads(scope, placed) as u64);
    if total > LIMIT {
        return Err(PolyEnd::Long(placed.place()));
    }
    state.read = total;
    Ok(())
}

/// Counts tokens.
fn count_all(state: &mut State, scope: &Scope, tokens: &[Item]) -> Result<(), PolyEnd>
    ensures ok { OnOk result (all_counted (scope_of scope.now) tokens.now (state_of state.old) ≡ found (state_of state.new)) }
    ensures err { IfErr result (λ e. all_counted (scope_of scope.now) tokens.now (state_of state.old) ≡ fault e) }
{
    for placed in tokens {
        if let Err(end) = count(state, scope, placed) {
            return Err(end);
        }
    }
    Ok(())
}

/// The arguments once more.
fn copied(alloc: Global, arguments: &[Codes]) -> Result<Vec<Codes>, AllocError>
    ensures { IfOk result (λ v. v.items ≡ arguments.now) }
{
    let mut copies = Vec::new(alloc);
    for argument in arguments {
        copies.push(Codes::of(alloc, argument.as_slice())?)?;
    }
    Ok(copies)
}

/// Counts the head of an instance: its declaration up to the name, without the list of variables.
fn count_head(
    alloc: Global,
    state: &mut State,
    number: usize,
    generic: &Generic,
) -> Result<(), PolyEnd>
    ensures ok { OnOk result (all_counted (outside number) (head (generic_of generic.now)) (state_of state.old) ≡ found (state_of state.new)) }
    ensures err { IfErr result (λ e. all_counted (outside number) (head (generic_of generic.now)) (state_of state.old) ≡ fault e) }
{
    let nothing = Names::make(alloc);
    let scope = Scope::outside(number, &nothing);
    if let Err(end) = count_all(state, &scope, generic.mark) {
        return Err(end);
    }
    if let Err(end) = count_all(state, &scope, generic.tilde) {
        return Err(end);
    }
    count(state, &scope, generic.own)
}

/// Walks the instance of a use.
#[cycle(walk)]
fn walk_instance(
    alloc: Global,
    text: &Sections,
    used: &Use,
    state: &mut State,
) -> Result<(), PolyEnd>
    ensures ok { OnOk result (instance_here text.now.generics (use_of used.now) (state_of state.old) ≡ found (state_of state.new)) }
    ensures err { IfErr result (IsFault PolyEnd.Memory (instance_here text.now.generics (use_of used.now) (state_of state.old))) }
{
    let Some(generic) = text.generic(used.generic) else {
        return Ok(());
    };
    if let Err(end) = count_head(alloc, state, used.generic, generic) {
        return Err(end);
    }
    let scope = Scope {
        before: used.generic,
        inside: true,
        variables: &generic.variables,
        arguments: used.arguments.as_slice(),
    };
    match walk(alloc, text, &scope, generic.rest, state) {
        Ok(()) => Ok(()),
        Err(end) => Err(end),
    }
}

/// Makes the instance of a use, if it is new, and walks it.
#[cycle(walk)]
fn make(alloc: Global, text: &Sections, used: &Use, state: &mut State) -> Result<(), PolyEnd>
    ensures ok { OnOk result (made_here text.now.generics (use_of used.now) (state_of state.old) ≡ found (state_of state.new)) }
    ensures err { IfErr result (IsFault PolyEnd.Memory (made_here text.now.generics (use_of used.now) (state_of state.old))) }
{
    let key = key_of(alloc, used.name, used.arguments.as_slice())?;
    if state.made.has(key.as_slice()) {
        return Ok(());
    }
    if state.made.count() >= INSTANCES {
        return Err(PolyEnd::Instances(used.place));
    }
    let instance = Instance {
        generic: used.generic,
        arguments: copied(alloc, used.arguments.as_slice())?,
    };
    state.made.add(key, instance)?;
    match walk_instance(alloc, text, used, state) {
        Ok(()) => Ok(()),
        Err(end) => Err(end),
    }
}

/// Does what a use asks for: an instance, or, inside the declaration itself, the instance that is walked.
#[cycle(walk)]
fn ask(
    alloc: Global,
    text: &Sections,
    scope: &Scope,
    used: &Use,
    state: &mut State,
) -> Result<(), PolyEnd>
    requires { may_use (scope_of scope.now) used.now.generic ≡ true }
    ensures ok { OnOk result (asked (walk_of text.now.generics (scope_of scope.now)) (use_of used.now) (state_of state.old) ≡ found (state_of state.new)) }
    ensures err { IfErr result (IsFault PolyEnd.Memory (asked (walk_of text.now.generics (scope_of scope.now)) (use_of used.now) (state_of state.old))) }
{
    if !scope.is_own(used.generic) {
        return match make(alloc, text, used, state) {
            Ok(()) => Ok(()),
            Err(end) => Err(end),
        };
    }
    let asked = key_of(alloc, used.name, used.arguments.as_slice())?;
    let own = key_of(alloc, used.name, scope.arguments)?;
    if asked.as_slice() == own.as_slice() {
        Ok(())
    } else {
        Err(PolyEnd::Instance(used.place))
    }
}

/// Reads the brackets of a use, and does what it asks for.
#[cycle(walk)]
fn walk_use(
    alloc: Global,
    text: &Sections,
    scope: &Scope,
    first: &Item,
    naming: &Bracketed,
    brackets: &[Item],
    state: &mut State,
) -> Result<(), PolyEnd>
    ensures ok { OnOk result (used_here text.now.generics (scope_of scope.now) first.now (bracketed_of naming.now) brackets.now (state_of state.old) ≡ found (state_of state.new)) }
    ensures err { IfErr result (IsFault PolyEnd.Memory (used_here text.now.generics (scope_of scope.now) first.now (bracketed_of naming.now) brackets.now (state_of state.old))) }
{
    let Some(generic) = text.used(scope, naming) else {
        return Err(PolyEnd::Generic(first.place()));
    };
    if let Err(end) = count_all(state, scope, brackets) {
        return Err(end);
    }
    let used = Use {
        generic,
        name: naming.name.bytes(),
        arguments: arguments_of(alloc, scope, naming.content)?,
        place: first.place(),
    };
    ask(alloc, text, scope, &used, state)
}

/// Reads the token or the use that stands here, and says how many tokens it takes.
#[cycle(walk)]
fn walk_first(
    alloc: Global,
    text: &Sections,
    scope: &Scope,
    tokens: &[Item],
    state: &mut State,
) -> Result<usize, PolyEnd>
    requires { 1 ≤ length tokens.now }
    ensures within { IfOk result (λ n. (1 ≤ n) × (n ≤ length tokens.now)) }
    ensures ok { IfOk result (λ n. walked_here text.now.generics (scope_of scope.now) tokens.now (state_of state.old) ≡ walked_here text.now.generics (scope_of scope.now) (drop n tokens.now) (state_of state.new)) }
    ensures err { IfErr result (IsFault PolyEnd.Memory (walked_here text.now.generics (scope_of scope.now) tokens.now (state_of state.old))) }
{
    let Some((first, more)) = tokens.split_first() else {
        return Ok(tokens.len());
    };
    if let Err(end) = count(state, scope, first) {
        return Err(end);
    }
    let Some(naming) = use_at(scope, first, more) else {
        return Ok(1);
    };
    let length = naming.content.len() + 2;
    match walk_use(alloc, text, scope, first, &naming, &more[..length], state) {
        Ok(()) => Ok(1 + length),
        Err(end) => Err(end),
    }
}

/// Reads tokens from left to right.
#[cycle(walk)]
pub(crate) fn walk(
    alloc: Global,
    text: &Sections,
    scope: &Scope,
    tokens: &[Item],
    state: &mut State,
) -> Result<(), PolyEnd>
    ensures ok { OnOk result (walked_here text.now.generics (scope_of scope.now) tokens.now (state_of state.old) ≡ found (state_of state.new)) }
    ensures err { IfErr result (IsFault PolyEnd.Memory (walked_here text.now.generics (scope_of scope.now) tokens.now (state_of state.old))) }
{
    let mut at = 0;
    'tokens: while at < tokens.len() {
        let (_, rest) = tokens.split_at(at);
        match walk_first(alloc, text, scope, rest, state) {
            Ok(length) => at += length,
            Err(end) => return Err(end),
        }
    }
    Ok(())
}

/// Walks a section, and says how many generic declarations stand before the next one.
fn walk_section(
    alloc: Global,
    text: &Sections,
    before: usize,
    section: &Option<&[Item]>,
    state: &mut State,
) -> Result<usize, PolyEnd>
    requires { before + 1 < 2 ^ 64 }
    ensures within { IfOk result (λ n. n ≤ before + 1) }
    ensures ok { IfOk result (λ n. (ss : List (Option (List PlacedOf))) → sections_walked text.now.generics before (option_map (λ t. t.now) section.now ∷ ss) (state_of state.old) ≡ sections_walked text.now.generics n ss (state_of state.new)) }
    ensures err { IfErr result (λ e. (ss : List (Option (List PlacedOf))) → IsFault PolyEnd.Memory (sections_walked text.now.generics before (option_map (λ t. t.now) section.now ∷ ss) (state_of state.old)) e) }
{
    let Some(tokens) = section else {
        return Ok(before + 1);
    };
    let nothing = Names::make(alloc);
    let scope = Scope::outside(before, &nothing);
    match walk(alloc, text, &scope, tokens, state) {
        Ok(()) => Ok(before),
        Err(end) => Err(end),
    }
}

/// Walks the sections of a text.
pub(crate) fn walk_sections(alloc: Global, text: &Sections) -> Result<State, PolyEnd>
    ensures found { IfOk result (λ state. sections_walked text.now.generics 0 text.now.sections (record { read = 0; made = [] }) ≡ found (state_of state)) }
    ensures fault { IfErr result (IsFault PolyEnd.Memory (sections_walked text.now.generics 0 text.now.sections (record { read = 0; made = [] }))) }
{
    let mut state = State {
        read: 0,
        made: Instances::make(alloc),
    };
    let mut before = 0;
    let sections = text.sections();
    for section in sections {
        match walk_section(alloc, text, before, section, &mut state) {
            Ok(next) => before = next,
            Err(end) => return Err(end),
        }
    }
    Ok(state)
}
