//! The tokens of a text with each instance of its generic declarations written out.

ghost use Rattle.std.specs.Prelude.{◌≡◌, ◌≤◌, ◌<◌, ◌+◌, ◌^◌, List, [], ◌∷◌, ◌++◌, Option, length, drop, map, slice_get, IfOk, OnOk};
ghost use Rattle.std.specs.Option.{option_map};
ghost use Rattle.std.specs.List.{All};
ghost use Rattle.m5_lex.specs.Token.{IsName, IsToken};
ghost use Rattle.m5_lex.specs.Tokens.{Listing};
ghost use Rattle.m5_lex.specs.declared.tokens.Placed.{Placed as PlacedOf};
ghost use Rattle.m5_poly.specs.Uses.{put_in, stands_for, outside};
ghost use Rattle.m5_poly.specs.Expansion.{named, written, instance_written, instances_written, sections_written};
ghost use Rattle.m5_poly.specs.code.Made.{made_from};
ghost use Rattle.m5_poly.specs.code.Views.{scope_of, bracketed_of, generic_of};
ghost use Rattle.m5_poly.specs.code.Writing.{writing_of, codes_at, with_tokens, use_number, instance_token, one_written};

use crate::codes::token_of;
use crate::instances::{Instance, Instances};
use crate::item::Item;
use crate::names::Names;
use crate::sections::{Generic, Sections};
use crate::uses::{Bracketed, CLOSE, OPEN, Scope, arguments_of, key_of, use_at};
use m5_lex::{Place, Token, Tokens};
use m5_terms::decimal::put_number;
use m5_terms::text::Text;
use std::alloc::{AllocError, Global};

/// What is written from: a text and its instances.
#[derive(Clone, Copy)]
pub(crate) struct Source<'s, 'a, 't> {
    pub(crate) text: &'s Sections<'a, 't>,
    pub(crate) made: &'s Instances,
}

/// Adds a token, if another one fits.
fn put(out: &mut Tokens, token: Token, place: Place) -> Result<(), AllocError>
    requires { IsToken token }
    ensures { OnOk result (out.new ≡ with_tokens out.old (record { token = token; place = place } ∷ [])) }
{
    if out.count() == u32::MAX {
        return Err(AllocError);
    }
    out.push(token, place)
}

/// Adds tokens as they are.
fn put_all(alloc: Global, out: &mut Tokens, tokens: &[Item]) -> Result<(), AllocError>
    ensures { OnOk result (out.new ≡ with_tokens out.old tokens.now) }
{
    for item in tokens {
        put(out, item.token().copy(alloc)?, item.place())?;
    }
    Ok(())
}

/// Adds the keywords and symbols of a type at one place.
fn put_codes(out: &mut Tokens, codes: &[u8], place: Place) -> Result<(), AllocError>
    requires { All (λ c. c < 65) codes.now }
    ensures { OnOk result (out.new ≡ with_tokens out.old (codes_at place codes.now)) }
{
    for code in codes {
        put(out, token_of(*code), place)?;
    }
    Ok(())
}

/// Adds what stands for a variable with this argument.
fn put_argument(out: &mut Tokens, argument: &[u8], place: Place) -> Result<(), AllocError>
    requires { All (λ c. c < 65) argument.now }
    ensures { OnOk result (out.new ≡ with_tokens out.old (codes_at place (put_in argument.now))) }
{
    if argument.len() == 1 {
        return put_codes(out, argument, place);
    }
    put_codes(out, &[OPEN], place)?;
    put_codes(out, argument, place)?;
    put_codes(out, &[CLOSE], place)
}

/// Adds what stands for a token.
fn put_read(alloc: Global, out: &mut Tokens, scope: &Scope, item: &Item) -> Result<(), AllocError>
    ensures { OnOk result (out.new ≡ with_tokens out.old (stands_for (scope_of scope.now) item.now)) }
{
    match scope.variable(item.token()) {
        Some(variable) => put_argument(out, scope.argument(variable), item.place()),
        None => put(out, item.token().copy(alloc)?, item.place()),
    }
}

/// The name of the instance with a number.
fn instance_token(alloc: Global, name: &[u8], number: usize) -> Result<Token, AllocError>
    requires { IsName name.now }
    ensures token { IfOk result (λ t. t ≡ instance_token name.now number) }
    ensures form { IfOk result (λ t. IsToken t) }
{
    let mut bytes = Vec::from_slice(alloc, name)?;
    bytes.extend_from_slice(b"''")?;
    put_number(alloc, &mut bytes, number as u64)?;
    Ok(Token::Name(Text::of(alloc, bytes.as_slice())?))
}

/// The number of the instance that a use names.
fn number_of(
    alloc: Global,
    made: &Instances,
    scope: &Scope,
    naming: &Bracketed,
    generic: usize,
) -> Result<usize, AllocError>
    ensures { IfOk result (λ n. n ≡ use_number made.now (scope_of scope.now) (bracketed_of naming.now) generic) }
{
    let arguments = arguments_of(alloc, scope, naming.content)?;
    let key = key_of(alloc, naming.name.bytes(), arguments.as_slice())?;
    Ok(made.number_of(generic, key.as_slice()))
}

/// Adds the token or the use that stands here, and says how many tokens it takes.
fn write_first(
    alloc: Global,
    out: &mut Tokens,
    source: &Source,
    scope: &Scope,
    tokens: &[Item],
) -> Result<usize, AllocError>
    requires { 1 ≤ length tokens.now }
    ensures within { IfOk result (λ n. (1 ≤ n) × (n ≤ length tokens.now)) }
    ensures ok { IfOk result (λ n. with_tokens out.new (written (writing_of source.now (scope_of scope.now)) 0 (drop n tokens.now)) ≡ with_tokens out.old (written (writing_of source.now (scope_of scope.now)) 0 tokens.now)) }
{
    let Some((first, more)) = tokens.split_first() else {
        return Ok(tokens.len());
    };
    let Some(naming) = use_at(scope, first, more) else {
        put_read(alloc, out, scope, first)?;
        return Ok(1);
    };
    let Some(generic) = source.text.used(scope, &naming) else {
        put_read(alloc, out, scope, first)?;
        return Ok(1);
    };
    let number = number_of(alloc, source.made, scope, &naming, generic)?;
    let token = instance_token(alloc, naming.name.bytes(), number)?;
    put(out, token, first.place())?;
    Ok(1 + (naming.content.len() + 2))
}

/// Adds tokens, each use as its instance's name, and each other token as what stands for it.
fn write(
    alloc: Global,
    out: &mut Tokens,
    source: &Source,
    scope: &Scope,
    tokens: &[Item],
) -> Result<(), AllocError>
    ensures { OnOk result (out.new ≡ with_tokens out.old (written (writing_of source.now (scope_of scope.now)) 0 tokens.now)) }
{
    let mut at = 0;
    'tokens: while at < tokens.len() {
        let (_, rest) = tokens.split_at(at);
        at += write_first(alloc, out, source, scope, rest)?;
    }
    Ok(())
}

/// Adds an instance: its declaration without the list of variables, under the instance's name.
fn write_instance(
    alloc: Global,
    out: &mut Tokens,
    source: &Source,
    generic: &Generic,
    key: &[u8],
    instance: &Instance,
) -> Result<(), AllocError>
    ensures { OnOk result (out.new ≡ with_tokens out.old (instance_written source.now.text.now.generics source.now.made.now instance.now.generic (generic_of generic.now) (made_from key.now instance.now))) }
{
    put_all(alloc, out, generic.mark)?;
    put_all(alloc, out, generic.tilde)?;
    let number = source.made.number_of(instance.generic, key);
    let token = instance_token(alloc, generic.name.bytes(), number)?;
    put(out, token, generic.own.place())?;
    let scope = Scope {
        before: instance.generic,
        inside: true,
        variables: &generic.variables,
        arguments: instance.arguments.as_slice(),
    };
    write(alloc, out, source, &scope, generic.rest)
}

/// Adds an instance, if it is one of the generic declaration with this number.
fn write_one(
    alloc: Global,
    out: &mut Tokens,
    source: &Source,
    generic: &Generic,
    number: usize,
    index: usize,
) -> Result<(), AllocError>
    ensures { OnOk result (out.new ≡ with_tokens out.old (one_written source.now.text.now.generics source.now.made.now number (generic_of generic.now) (slice_get source.now.made.now index))) }
{
    match source.made.at(index) {
        Some((key, instance)) if instance.generic == number => {
            write_instance(alloc, out, source, generic, key.as_slice(), instance)
        }
        _ => Ok(()),
    }
}

/// Adds the instances of a generic declaration in order.
fn write_instances(
    alloc: Global,
    out: &mut Tokens,
    source: &Source,
    number: usize,
) -> Result<(), AllocError>
    ensures { OnOk result (out.new ≡ with_tokens out.old (instances_written source.now.text.now.generics source.now.made.now number (slice_get source.now.text.now.generics number))) }
{
    let Some(generic) = source.text.generic(number) else {
        return Ok(());
    };
    for index in 0..source.made.count() {
        write_one(alloc, out, source, generic, number, index)?;
    }
    Ok(())
}

/// Adds a section, and says how many generic declarations stand before the next one.
fn write_section(
    alloc: Global,
    out: &mut Tokens,
    source: &Source,
    before: usize,
    section: &Option<&[Item]>,
) -> Result<usize, AllocError>
    requires { before + 1 < 2 ^ 64 }
    ensures within { IfOk result (λ n. n ≤ before + 1) }
    ensures ok { IfOk result (λ n. (ss : List (Option (List PlacedOf))) → with_tokens out.new (sections_written source.now.text.now.generics source.now.made.now n ss) ≡ with_tokens out.old (sections_written source.now.text.now.generics source.now.made.now before (option_map (λ t. t.now) section.now ∷ ss))) }
{
    let Some(tokens) = section else {
        write_instances(alloc, out, source, before)?;
        return Ok(before + 1);
    };
    let nothing = Names::make(alloc);
    let scope = Scope::outside(before, &nothing);
    write(alloc, out, source, &scope, tokens)?;
    Ok(before)
}

/// Adds the sections in order.
pub(crate) fn write_sections(
    alloc: Global,
    out: &mut Tokens,
    source: &Source,
) -> Result<(), AllocError>
    ensures { OnOk result (out.new ≡ with_tokens out.old (sections_written source.now.text.now.generics source.now.made.now 0 source.now.text.now.sections)) }
{
    let mut before = 0;
    let sections = source.text.sections();
    for section in sections {
        before = write_section(alloc, out, source, before, section)?;
    }
    Ok(())
}
