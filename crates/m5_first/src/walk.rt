//! The run of a program of the first form, which says texts one after the other.

ghost use Rattle.std.specs.Prelude.{◌≡◌, IfOk};
ghost use Rattle.m5_first.specs.Says.{text_of, number_text, says_of};
ghost use Rattle.m5_first.specs.Walk.{texts_in, is_say_term, Appended, AppendedSayings, IsText, Walked};

use m5_terms::ask::{Act, End, Entries, Entry, History};
use m5_terms::node::Node;
use m5_terms::term::Term;
use m5_terms::text::Text;
use m5_terms::types::{Op, Prim, World};
use m5_typing::program::Program;
use std::alloc::{AllocError, Global};

/// The variables around a node with their texts, the innermost first.
#[derive(Clone, Copy)]
pub enum Scope<'a> {
    Empty,
    Bound(u32, &'a Text, &'a Scope<'a>),
}

/// Appends the text of a variable, if it has one.
fn append_variable(variable: u32, scope: &Scope<'_>, text: &mut Vec<u8>) -> Result<bool, AllocError>
    ensures { IfOk result (Appended text.old.items text.new.items (texts_in scope.now variable)) }
{
    match scope {
        Scope::Empty => Ok(false),
        Scope::Bound(bound, found, outer) => {
            if variable == *bound {
                text.extend_from_slice(found.bytes())?;
                return Ok(true);
            }
            append_variable(variable, outer, text)
        }
    }
}

/// Appends the decimal text of a number's term, if the term is a number.
fn append_number(node: &Node, alloc: Global, text: &mut Vec<u8>) -> Result<bool, AllocError>
    ensures { IfOk result (Appended text.old.items text.new.items (number_text node.now)) }
{
    match &node.term {
        Term::Int(number) => {
            let digits = number.to_string(alloc)?;
            text.extend_from_slice(digits.as_bytes())?;
            Ok(true)
        }
        _ => Ok(false),
    }
}

/// Appends the text that a term stands for, if it stands for one.
fn append_text(
    node: &Node,
    scope: &Scope<'_>,
    alloc: Global,
    text: &mut Vec<u8>,
) -> Result<bool, AllocError>
    ensures { IfOk result (Appended text.old.items text.new.items (text_of (texts_in scope.now) node.now)) }
{
    match &node.term {
        Term::Str(literal) => {
            text.extend_from_slice(literal.bytes())?;
            Ok(true)
        }
        Term::Var(variable) => append_variable(*variable, &*scope, text),
        Term::StrOf { first } => append_number(first.get(), alloc, text),
        Term::Binary {
            op: Op::Cat,
            first,
            second,
        } => {
            if !append_text(first.get(), &*scope, alloc, text)? {
                return Ok(false);
            }
            append_text(second.get(), &*scope, alloc, text)
        }
        _ => Ok(false),
    }
}

/// The text that a term stands for, if it stands for one.
fn text_in(node: &Node, scope: &Scope<'_>, alloc: Global) -> Result<Option<Text>, AllocError>
    ensures { IfOk result (IsText (text_of (texts_in scope.now) node.now)) }
{
    let mut bytes = Vec::new(alloc);
    if !append_text(node, &*scope, alloc, &mut bytes)? {
        return Ok(None);
    }
    Ok(Some(Text::of(alloc, &bytes)?))
}

/// Whether a term is `say`.
fn is_say(node: &Node) -> bool
    ensures { result ≡ is_say_term node.now }
{
    match &node.term {
        Term::Extern(Prim::Say) => true,
        _ => false,
    }
}

/// Appends an entry for each text that a term says, if the term is of the first form.
fn append_sayings(
    node: &Node,
    scope: &Scope<'_>,
    alloc: Global,
    entries: &mut Entries,
) -> Result<bool, AllocError>
    ensures { IfOk result (AppendedSayings entries.old entries.new (says_of (texts_in scope.now) node.now)) }
{
    match &node.term {
        Term::Unit => Ok(true),
        Term::Call { first, second } => {
            if !is_say(first.get()) {
                return Ok(false);
            }
            let Some(text) = text_in(second.get(), &*scope, alloc)? else {
                return Ok(false);
            };
            entries.push(Entry {
                session: 1,
                world: World::Home,
                act: Act::Say(text),
            })?;
            Ok(true)
        }
        Term::Do { first, second } => {
            if !append_sayings(first.get(), &*scope, alloc, entries)? {
                return Ok(false);
            }
            append_sayings(second.get(), &*scope, alloc, entries)
        }
        Term::Val { var, first, second } => {
            let Some(text) = text_in(first.get(), &*scope, alloc)? else {
                return Ok(false);
            };
            let inner = Scope::Bound(*var, &text, &*scope);
            append_sayings(second.get(), &inner, alloc, entries)
        }
        _ => Ok(false),
    }
}

/// The history of the run of a program of the first form, in one session and by a script that says nothing else: what its
/// `main` says, and then rest. None where the program declares functions or `main` is of another form.
pub fn run(alloc: Global, program: &Program) -> Result<Option<History>, AllocError>
    ensures { IfOk result (Walked program.now) }
{
    if !program.functions().is_empty() {
        return Ok(None);
    }
    let mut entries = Entries::make(alloc);
    if !append_sayings(program.main(), &Scope::Empty, alloc, &mut entries)? {
        return Ok(None);
    }
    Ok(Some(History {
        entries,
        end: End::Rest,
    }))
}
