//! What stands for the tokens of a declaration's instance, and the uses of generic declarations.

ghost use Rattle.std.specs.Prelude.{◌≡◌, ◌≤◌, ◌<◌, ◌+◌, ◌*◌, ◌/◌, [], ◌++◌, length, IfOk, IfSome, OnOk};
ghost use Rattle.m5_poly.specs.Roles.{name_place};
ghost use Rattle.std.specs.Option.{option_map};
ghost use Rattle.std.specs.List.{All, slice_index_or, flat_map};
ghost use Rattle.m5_poly.specs.Uses.{put_in, read_as, pairs_around, stripped, in_front, parts, arguments_of, use_at, key_of, is_own, may_use};
ghost use Rattle.m5_poly.specs.Uses.{Scope as ScopeAs, outside};
ghost use Rattle.m5_poly.specs.code.Views.{scope_of, bracketed_of};

use crate::codes::{Codes, code_of};
use crate::item::Item;
use crate::name::Name;
use crate::names::Names;
use crate::role::{COMMA, OPENING, is_sign, name_place};
use crate::types::closing;
use m5_lex::Token;
use std::alloc::{AllocError, Global};

/// `(` and `)` as codes.
pub(crate) const OPEN: u8 = 44;

pub(crate) const CLOSE: u8 = 45;

/// Where tokens are read: behind so many generic declarations, or inside an instance of the next one, whose variables
/// stand for these arguments.
#[derive(Clone, Copy)]
pub(crate) struct Scope<'s> {
    pub(crate) before: usize,
    pub(crate) inside: bool,
    pub(crate) variables: &'s Names,
    pub(crate) arguments: &'s [Codes],
}

/// A name that stands directly before types in brackets, and what these hold.
#[derive(Drop)]
pub(crate) struct Bracketed<'a, 't> {
    pub(crate) name: Name<'t>,
    pub(crate) content: &'a [Item<'t>],
}

impl<'s> Scope<'s> {
    /// A section that is no generic declaration's, behind so many of them; it has no variables.
    pub(crate) fn outside(before: usize, nothing: &'s Names) -> Scope<'s>
        requires { nothing.now ≡ [] }
        ensures { scope_of result ≡ outside before }
    {
        Scope {
            before,
            inside: false,
            variables: nothing,
            arguments: &[],
        }
    }

    /// The argument of a variable.
    pub(crate) fn argument(&self, variable: usize) -> &'s [u8]
        ensures codes { result.now ≡ slice_index_or (scope_of self.now).arguments variable [] }
        ensures form { All (λ c. c < 65) result.now }
    {
        match self.arguments.get(variable) {
            Some(argument) => argument.as_slice(),
            None => &[],
        }
    }

    /// Which variable a token is.
    pub(crate) fn variable(&self, token: &Token) -> Option<usize>
        ensures { result ≡ name_place (scope_of self.now).variables token.now }
    {
        name_place(self.variables, token)
    }
}

impl Scope<'_> {
    /// Whether the generic declaration with a number may be used: it stands before, or around.
    pub(crate) fn may_use(&self, number: usize) -> bool
        ensures { result ≡ may_use (scope_of self.now) number }
    {
        number < self.before || self.is_own(number)
    }

    /// Whether the generic declaration with a number is the surrounding one.
    pub(crate) fn is_own(&self, number: usize) -> bool
        ensures { result ≡ is_own (scope_of self.now) number }
    {
        self.inside && number == self.before
    }
}

/// How many tokens stand for a variable with this argument.
fn width(argument: &[u8]) -> usize
    ensures { result ≡ length (put_in argument.now) }
{
    if argument.len() == 1 {
        1
    } else {
        argument.len() + 2
    }
}

/// Adds what stands for a variable with this argument.
fn put_in(out: &mut Codes, argument: &[u8]) -> Result<(), AllocError>
    requires { All (λ c. c < 65) argument.now }
    ensures { OnOk result (out.new ≡ out.old ++ put_in argument.now) }
{
    if let [code] = argument {
        return out.push(*code);
    }
    out.push(OPEN)?;
    out.push_all(argument)?;
    out.push(CLOSE)
}

/// How many tokens are read for a token.
pub(crate) fn reads(scope: &Scope, placed: &Item) -> usize
    ensures { result ≡ length (read_as (scope_of scope.now) placed.now) }
{
    match scope.variable(placed.token()) {
        Some(variable) => width(scope.argument(variable)),
        None => 1,
    }
}

/// Adds the keywords and symbols that a token of a type is read as.
fn put_read(out: &mut Codes, scope: &Scope, placed: &Item) -> Result<(), AllocError>
    ensures { OnOk result (out.new ≡ out.old ++ read_as (scope_of scope.now) placed.now) }
{
    match scope.variable(placed.token()) {
        Some(variable) => put_in(out, scope.argument(variable)),
        None => out.push(code_of(placed.token())),
    }
}

/// How many pairs of parentheses stand around all other codes, at most half as many as there are codes.
fn pairs_around(codes: &[u8]) -> usize
    ensures pairs { result ≡ pairs_around 0 (length codes.now / 2) codes.now }
    ensures within { 2 * result ≤ length codes.now }
{
    let mut depth: usize = 0;
    let mut least = codes.len() / 2;
    for code in codes {
        match *code {
            OPEN => depth += 1,
            CLOSE => depth = depth.saturating_sub(1),
            _ => least = least.min(depth),
        }
    }
    least
}

/// A type without the pairs of parentheses around it.
fn stripped(alloc: Global, codes: &Codes) -> Result<Codes, AllocError>
    ensures { IfOk result (λ c. c ≡ stripped codes.now) }
{
    let codes = codes.as_slice();
    let pairs = pairs_around(codes);
    Codes::of(alloc, &codes[pairs..codes.len() - pairs])
}

/// The arguments of a use whose brackets hold these tokens.
#[tactic(auto, using(crate::proofs::Arguments::front_nothing, crate::proofs::Arguments::comma_next, crate::proofs::Arguments::code_next))]
pub(crate) fn arguments_of(
    alloc: Global,
    scope: &Scope,
    content: &[Item],
) -> Result<Vec<Codes>, AllocError>
    ensures { IfOk result (λ v. v.items ≡ arguments_of (scope_of scope.now) content.now) }
{
    let mut arguments = Vec::new(alloc);
    let mut part = Codes::make(alloc);
    for placed in content {
        if is_sign(placed.token(), COMMA) {
            arguments.push(stripped(alloc, &part)?)?;
            part = Codes::make(alloc);
        } else {
            put_read(&mut part, scope, placed)?;
        }
    }
    arguments.push(stripped(alloc, &part)?)?;
    Ok(arguments)
}

/// How many arguments a use has whose brackets hold these tokens.
#[tactic(auto, using(crate::proofs::Arguments::count_parts))]
pub(crate) fn count_of(content: &[Item]) -> usize
    ensures { (s : ScopeAs) → result ≡ length (arguments_of s content.now) }
{
    1 + content
        .iter()
        .filter(|placed| is_sign(placed.token(), COMMA))
        .count()
}

/// The use that begins at a token, before these: a name that is no variable, `[`, types parted by commas, and `]`.
pub(crate) fn use_at<'a, 't>(
    scope: &Scope,
    first: &'a Item<'t>,
    rest: &'a [Item<'t>],
) -> Option<Bracketed<'a, 't>>
    ensures found { option_map (λ b. bracketed_of b) result ≡ use_at (scope_of scope.now) first.now rest.now }
    ensures within { IfSome result (λ b. length b.content.now + 2 ≤ length rest.now) }
{
    let (opening, types) = rest.split_first()?;
    if !is_sign(opening.token(), OPENING) {
        return None;
    }
    let name = Name::of(first.token())?;
    if scope.variable(first.token()).is_some() {
        return None;
    }
    let length = closing(scope.variables, types)?;
    Some(Bracketed {
        name,
        content: &types[..length],
    })
}

/// By what instances are told apart: their name and their arguments, each with a comma behind it.
pub(crate) fn key_of(alloc: Global, name: &[u8], arguments: &[Codes]) -> Result<Vec<u8>, AllocError>
    ensures { IfOk result (λ v. v.items ≡ key_of name.now arguments.now) }
{
    let mut key = Vec::from_slice(alloc, name)?;
    key.push(b'[')?;
    for argument in arguments {
        key.extend_from_slice(argument.as_slice())?;
        key.push(48)?;
    }
    Ok(key)
}
