//! The externs and functions that a program declares.

ghost use Rattle.std.specs.Prelude.{◌≡◌, ◌+◌, ◌<◌, ◌≤◌, ◌^◌, [], length, slice_get, IfErr, IfOk, OnOk};
ghost use Rattle.std.specs.Option.{option_map};
ghost use Rattle.m5_lex.specs.declared.place.Place.{Place as PlaceOf};
ghost use Rattle.m5_terms.specs.declared.types.World.{World as WorldOf};
ghost use Rattle.m5_tree.specs.Syntax.{Syntax};
ghost use Rattle.m5_scope.specs.Meaning.{hides, known};
ghost use Rattle.m5_scope.specs.Written.{type_of};
ghost use Rattle.m5_terms.specs.Outcome.{found};
ghost use Rattle.m5_scope.specs.Resolving.{IsFault, binders};
ghost use Rattle.m5_scope.specs.Program.{primitive_of, once, made_known, externs_known, function_resolved, main_resolved, functions_resolved, list_binders};
ghost use Rattle.m5_scope.specs.declared.meaning.Meaning.TheVariants.{Glob};

use crate::end::ScopeEnd;
use crate::expression::within;
use crate::meaning::{Meaning, meaning_of};
use crate::written::written;
use m5_raw::function::Function;
use m5_terms::listed::Listed;
use m5_terms::primitives::extern_of;
use m5_terms::table::{Binding, Table};
use m5_terms::types::{Prim, World, is_same, is_same_world};
use m5_tree::names::Names;
use m5_tree::tree::{Extern as ExternTree, Function as FunctionTree};
use m5_tree::type_expr::TypeExpr;
use std::alloc::{AllocError, Global};

/// The primitive with exactly this name, type and world.
#[tactic(auto, using(crate::proofs::Externs::no_primitive, crate::proofs::Externs::that_primitive), unfolding(crate::specs::Program::primitive_of))]
fn primitive(
    alloc: Global,
    name: Option<&[u8]>,
    ty: &TypeExpr,
    world: World,
) -> Result<Option<Prim>, AllocError>
    ensures { IfOk result (λ p. p ≡ primitive_of (option_map (λ x. x.now) name.entry) (type_of ty.now) world) }
{
    let Some(name) = name else {
        return Ok(None);
    };
    let Some(prim) = extern_of(name) else {
        return Ok(None);
    };
    let declared = written(alloc, ty)?;
    let wanted = prim.ty(alloc)?;
    if is_same(&declared, &wanted) && is_same_world(world, prim.world()) {
        return Ok(Some(prim));
    }
    Ok(None)
}

/// Makes a primitive known by its name, which nothing else has.
fn declare_extern(
    alloc: Global,
    names: &Names,
    table: &mut Table<Meaning>,
    item: &ExternTree,
) -> Result<(), ScopeEnd>
    ensures value { OnOk result (once item.now.place (known table.old item.now.name) (made_known (known table.old) item.now (primitive_of (slice_get names.now item.now.name) (type_of item.now.ty) item.now.world)) ≡ found (known table.new)) }
    ensures fault { IfErr result (IsFault (once item.now.place (known table.old item.now.name) (made_known (known table.old) item.now (primitive_of (slice_get names.now item.now.name) (type_of item.now.ty) item.now.world)))) }
{
    if meaning_of(table, item.name).is_some() {
        return Err(ScopeEnd::Repeated(item.place));
    }
    match primitive(alloc, names.get(item.name), &item.ty, item.world)? {
        None => Err(ScopeEnd::BadExtern(item.place)),
        Some(prim) => {
            table.replace(item.name, Some(Meaning::Extern(prim)))?;
            Ok(())
        }
    }
}

/// Makes the externs known in their order.
pub(crate) fn declare_externs(
    alloc: Global,
    names: &Names,
    table: &mut Table<Meaning>,
    items: &[ExternTree],
) -> Result<(), ScopeEnd>
    ensures value { OnOk result (externs_known names.now (known table.old) items.now ≡ found (known table.new)) }
    ensures fault { IfErr result (IsFault (externs_known names.now (known table.old) items.now)) }
{
    let mut rest = items;
    while let Some((item, more)) = rest.split_first() {
        declare_extern(alloc, names, table, item)?;
        rest = more;
    }
    Ok(())
}

/// Makes a function of this number known, and resolves its body.
#[tactic(auto, using(crate::proofs::Declaring::function_found, crate::proofs::Declaring::function_fault, crate::proofs::Declaring::function_repeated))]
fn declare_function(
    alloc: Global,
    table: &mut Table<Meaning>,
    next: &mut u32,
    number: u32,
    item: &FunctionTree,
) -> Result<Function, ScopeEnd>
    requires { next.old + (1 + binders item.now.body) < 2 ^ 32 }
    ensures value { IfOk result (λ g. function_resolved (known table.old) number next.old item.now ≡ found g) }
    ensures next { OnOk result (next.new ≡ next.old + (1 + binders item.now.body)) }
    ensures table { OnOk result (known table.new ≡ hides (known table.old) item.now.name (Glob number)) }
    ensures fault { IfErr result (IsFault (function_resolved (known table.old) number next.old item.now)) }
{
    if meaning_of(table, item.name).is_some() {
        return Err(ScopeEnd::Repeated(item.name_place));
    }
    table.replace(item.name, Some(Meaning::Glob(number)))?;
    let parameter = *next;
    *next += 1;
    let binding = Binding::One(item.parameter, Meaning::Var(parameter));
    let body = within(alloc, table, next, binding, &item.body)?;
    let ty = written(alloc, &item.ty)?;
    let result = written(alloc, &item.result)?;
    Ok(Function {
        place: item.place,
        world: item.world,
        parameter,
        ty,
        result,
        body: body.into_inner(),
    })
}

/// Makes the functions known in their order, and resolves their bodies. A function's number is how many came before it.
#[tactic(auto, using(crate::proofs::Declaring::functions_next, crate::proofs::Declaring::functions_fault))]
pub(crate) fn declare_functions(
    alloc: Global,
    table: &mut Table<Meaning>,
    next: &mut u32,
    items: &[FunctionTree],
) -> Result<Listed<Function>, ScopeEnd>
    requires { next.old + list_binders items.now < 2 ^ 32 }
    ensures value { IfOk result (λ gs. (at : PlaceOf) (e : Syntax) → functions_resolved [] (known table.old) next.old items.now at e ≡ main_resolved gs (known table.new) next.new at e) }
    ensures next { OnOk result (next.new ≡ next.old + list_binders items.now) }
    ensures fault { IfErr result (λ err. (at : PlaceOf) (e : Syntax) → IsFault (functions_resolved [] (known table.old) next.old items.now at e) err) }
{
    let mut functions = Listed::make(alloc);
    let mut number = 0;
    let mut rest = items;
    while let Some((item, more)) = rest.split_first() {
        let function = declare_function(alloc, table, next, number, item)?;
        functions.push(function)?;
        number += 1;
        rest = more;
    }
    Ok(functions)
}
