//! The names of a program resolved, each binder with a number of its own.

ghost use Rattle.std.specs.Prelude.{◌≡◌, ◌≤◌, ◌++◌, length, IfErr, IfOk, OnOk};
ghost use Rattle.m5_scope.specs.Meaning.{known, nothing_known};
ghost use Rattle.m5_scope.specs.Places.{extern_lists, function_lists, program_places};
ghost use Rattle.m5_terms.specs.Outcome.{found};
ghost use Rattle.m5_scope.specs.Resolving.{IsFault};
ghost use Rattle.m5_scope.specs.Program.{program_resolved, tree_resolved};

use crate::declare::{declare_externs, declare_functions};
use crate::end::ScopeEnd;
use crate::expression::expression;
use crate::meaning::Meaning;
use crate::places::{of_expr, of_type};
use m5_lex::Place;
use m5_raw::raw::Raw;
use m5_terms::listed::Listed;
use m5_terms::table::Table;
use m5_tree::names::Names;
use m5_tree::tree::{Declarations, Extern, Function, Program, Tree};
use std::alloc::{AllocError, Global};

/// The most nodes that a program may have.
const LIMIT: u64 = 16_000;

fn of_externs(items: &[Extern], list: &mut Listed<Place>) -> Result<(), AllocError>
    ensures { OnOk result (list.new ≡ list.old ++ extern_lists items.now) }
{
    let mut rest = items;
    while let Some((item, more)) = rest.split_first() {
        of_type(&item.ty, list)?;
        rest = more;
    }
    Ok(())
}

fn of_functions(items: &[Function], list: &mut Listed<Place>) -> Result<(), AllocError>
    ensures { OnOk result (list.new ≡ list.old ++ function_lists items.now) }
{
    let mut rest = items;
    while let Some((item, more)) = rest.split_first() {
        of_type(&item.ty, list)?;
        of_type(&item.result, list)?;
        of_expr(&item.body, list)?;
        rest = more;
    }
    Ok(())
}

/// The places of all nodes in the order of the text.
fn places_of(alloc: Global, program: &Program) -> Result<Listed<Place>, AllocError>
    ensures { IfOk result (λ list. list ≡ program_places program.now) }
{
    let mut list = Listed::make(alloc);
    of_externs(program.declarations.externs.as_slice(), &mut list)?;
    of_functions(program.declarations.functions.as_slice(), &mut list)?;
    of_expr(&program.body, &mut list)?;
    Ok(list)
}

/// The program resolved in a table without meanings.
#[tactic(auto, using(crate::proofs::Raws::program_externs_fault, crate::proofs::Raws::program_functions_fault, crate::proofs::Raws::program_main, crate::proofs::Raws::program_main_fault, crate::proofs::Raws::program_few, crate::proofs::Raws::program_sizes, crate::proofs::Raws::raw_of))]
fn resolve_in(
    alloc: Global,
    table: &mut Table<Meaning>,
    names: &Names,
    program: &Program,
) -> Result<Raw, ScopeEnd>
    requires few { length (program_places program.now) ≤ 16000 }
    requires unknown { known table.old ≡ nothing_known }
    ensures found { IfOk result (λ raw. program_resolved names.now program.now ≡ found raw) }
    ensures fault { IfErr result (IsFault (program_resolved names.now program.now)) }
{
    let Declarations { externs, functions } = &program.declarations;
    declare_externs(alloc, names, table, externs.as_slice())?;
    let mut next = 0;
    let functions = declare_functions(alloc, table, &mut next, functions.as_slice())?;
    let main = expression(alloc, table, &mut next, &program.body)?;
    Ok(Raw::make(functions, program.main, main))
}

#[tactic(auto, using(crate::proofs::Raws::nothing_in))]
fn resolve_program(alloc: Global, tree: &Tree) -> Result<Raw, ScopeEnd>
    requires { length (program_places tree.now.program) ≤ 16000 }
    ensures found { IfOk result (λ raw. program_resolved tree.now.names tree.now.program ≡ found raw) }
    ensures fault { IfErr result (IsFault (program_resolved tree.now.names tree.now.program)) }
{
    let mut table = Table::make(alloc);
    resolve_in(alloc, &mut table, &tree.names, &tree.program)
}

/// The program with its names resolved: binders have the numbers from 0 on in the order of the text, and so have the
/// declared functions.
///
/// A program of more than 16,000 nodes is refused first, and else the earliest name that nothing binds, that is declared
/// again, or that is an extern's and no primitive's. A tree that no text has, with a number or a byte of a literal that no
/// token has, ends as want of memory does.
#[tactic(auto, using(std::proofs::lemmas::Option::slice_get_past))]
pub fn resolve(alloc: Global, tree: &Tree) -> Result<Raw, ScopeEnd>
    ensures found { IfOk result (λ raw. tree_resolved tree.now.names tree.now.program ≡ found raw) }
    ensures fault { IfErr result (IsFault (tree_resolved tree.now.names tree.now.program)) }
{
    let list = places_of(alloc, &tree.program)?;
    if list.count() > LIMIT {
        return Err(ScopeEnd::TooMany(*list.at(LIMIT)));
    }
    resolve_program(alloc, tree)
}
