//! A program read: the tokens of a text, their tree, its names, its types.

ghost use Rattle.std.specs.Prelude.{◌≡◌, ◌<◌, length, IfErr, IfOk};
ghost use Rattle.m5_raw.specs.RawTerm.{RawTerm};
ghost use Rattle.m5_tree.specs.declared.tree.Tree.{Tree as TreeOf};
ghost use Rattle.m5_typing.specs.Program.{ProgramTerm};
ghost use Rattle.m5_front.specs.Reading.{HasTree, IsRead, AreAccepted, IsAccepted, Answers, IsAnswer, IsNoRefusal};
ghost use Rattle.m5_front.specs.Refusal.{HasCause, HaveCause, refusal_of, type_refusal_of};

use crate::refusal::{Fault, FrontEnd};
use m5_elaborate::elaborate::elaborate;
use m5_elaborate::end::TypeEnd;
use m5_lex::{LexEnd, Tokens, lex};
use m5_parse::parse::{ParseEnd, parse};
use m5_raw::raw::Raw;
use m5_scope::end::ScopeEnd;
use m5_scope::resolve::resolve;
use m5_tree::tree::Tree;
use m5_typing::program::Program;
use std::alloc::Global;

/// A tree and the same with its names resolved.
#[derive(Drop)]
pub struct Read {
    pub tree: Tree,
    pub raw: Raw,
}

/// An accepted program: its tree, the same with its names resolved, and the typed program.
#[derive(Drop)]
pub struct Accepted {
    pub tree: Tree,
    pub raw: Raw,
    pub program: Program,
}

/// The tree of tokens.
fn tree_of(alloc: Global, tokens: &Tokens) -> Result<Tree, FrontEnd>
    ensures found { IfOk result (λ tree. HasTree tokens.now tree) }
    ensures refused { IfErr result (HaveCause tokens.now) }
    ensures accepted { (tree : TreeOf) → HasTree tokens.now tree → Answers tree result }
{
    match parse(alloc, tokens) {
        Ok(tree) => Ok(tree),
        Err(ParseEnd::Syntax(place)) => Err(FrontEnd::refused(Fault::Syntax, place)),
        Err(ParseEnd::Deep(place)) => Err(FrontEnd::refused(Fault::Deep, place)),
        Err(ParseEnd::Memory) => Err(FrontEnd::Memory),
    }
}

/// How a fault of names is answered.
fn scope_end(end: ScopeEnd) -> FrontEnd
    ensures { result ≡ refusal_of end }
{
    match end {
        ScopeEnd::Memory => FrontEnd::Memory,
        ScopeEnd::TooMany(place) => FrontEnd::refused(Fault::TooMany, place),
        ScopeEnd::Unbound(place) => FrontEnd::refused(Fault::Unbound, place),
        ScopeEnd::Repeated(place) => FrontEnd::refused(Fault::Repeated, place),
        ScopeEnd::BadExtern(place) => FrontEnd::refused(Fault::BadExtern, place),
    }
}

/// The tree of tokens and its resolved program.
fn names_of(alloc: Global, tokens: &Tokens) -> Result<Read, FrontEnd>
    ensures found { IfOk result (λ read. IsRead tokens.now read.tree read.raw) }
    ensures refused { IfErr result (HaveCause tokens.now) }
    ensures accepted { (tree : TreeOf) (raw : RawTerm) → IsRead tokens.now tree raw → IsAnswer tree raw result }
{
    let tree = match tree_of(alloc, tokens) {
        Ok(tree) => tree,
        Err(end) => return Err(end),
    };
    match resolve(alloc, &tree) {
        Ok(raw) => Ok(Read { tree, raw }),
        Err(end) => Err(scope_end(end)),
    }
}

/// How a fault of types is answered.
fn type_end(end: TypeEnd) -> FrontEnd
    ensures { result ≡ type_refusal_of end }
{
    match end {
        TypeEnd::Memory => FrontEnd::Memory,
        TypeEnd::Refused(kind, place) => FrontEnd::refused(Fault::Types(kind), place),
    }
}

/// The typed program of tokens, exactly where these have a tree within the level of 400, its names are resolved and its
/// types found; else the first fault: that of the grammar before one of names, and that before one of types.
pub fn read_tokens(alloc: Global, tokens: &Tokens) -> Result<Accepted, FrontEnd>
    ensures found { IfOk result (λ a. AreAccepted tokens.now a.tree a.raw a.program) }
    ensures refused { IfErr result (HaveCause tokens.now) }
    ensures accepted { (tree : TreeOf) (raw : RawTerm) (program : ProgramTerm) → AreAccepted tokens.now tree raw program → IfErr result IsNoRefusal }
{
    let read = match names_of(alloc, tokens) {
        Ok(read) => read,
        Err(end) => return Err(end),
    };
    match elaborate(alloc, &read.raw) {
        Ok(program) => {
            let Read { tree, raw } = read;
            Ok(Accepted { tree, raw, program })
        }
        Err(end) => Err(type_end(end)),
    }
}

/// The typed program of a text, exactly where the text has tokens and `read_tokens` finds theirs; else the first fault:
/// that of bytes and numbers before any of its tokens.
pub fn read_program(alloc: Global, text: &[u8]) -> Result<Accepted, FrontEnd>
    requires { length text.now < 4294967295 }
    ensures found { IfOk result (λ a. IsAccepted text.now a.tree a.raw a.program) }
    ensures refused { IfErr result (HasCause text.now) }
    ensures accepted { (tree : TreeOf) (raw : RawTerm) (program : ProgramTerm) → IsAccepted text.now tree raw program → IfErr result IsNoRefusal }
{
    match lex(alloc, text) {
        Ok(tokens) => read_tokens(alloc, &tokens),
        Err(LexEnd::BadByte(place)) => Err(FrontEnd::refused(Fault::Byte, place)),
        Err(LexEnd::BadNumber(place)) => Err(FrontEnd::refused(Fault::Number, place)),
        Err(LexEnd::Memory) => Err(FrontEnd::Memory),
    }
}
