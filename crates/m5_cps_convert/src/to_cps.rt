//! The blocks of a program, written in one pass.

ghost use Rattle.std.specs.Prelude.{◌≡◌, IfOk, IsTrue};
ghost use Rattle.std.specs.List.{list_all};
ghost use Rattle.m5_typing.specs.Program.{in_text};
ghost use Rattle.m5_cps.specs.Table.{blocks_of};
ghost use Rattle.m5_cps.specs.declared.entry.Mode.TheVariants.{Only};
ghost use Rattle.m5_cps_convert.specs.Convert.{program_blocks};
ghost use Rattle.m5_cps_convert.specs.Laws.{GoesOnAs, IsFewFor};
ghost use Rattle.m5_cps_convert.specs.code.Programs.{Declares, WritesFunction, WritesFunctions, WritesMain};

use crate::lets::bound;
use crate::names::declared_number;
use crate::node::{emit, within};
use crate::part_types::function_parts;
use crate::types::{add_row, add_type};
use crate::walk::{Around, Goal, Kind, Names, Walk};
use m5_cps::cps::{Cps, Start};
use m5_cps::entry::{Entry, Mode};
use m5_cps::steps::Steps;
use m5_cps::types::{TypeRow, Types};
use m5_terms::node::Node;
use m5_terms::table::Binding;
use m5_terms::types::World;
use m5_typing::functions::Function;
use m5_typing::program::Program;
use std::alloc::{AllocError, Global};

/// The numbers of the declared functions' types, in their order.
fn declare(
    alloc: Global,
    types: &mut Types,
    functions: &[Function],
) -> Result<Vec<usize>, AllocError>
    ensures { IfOk result (λ numbers. Declares types.old types.new functions.now numbers.items) }
{
    let mut numbers = Vec::new(alloc);
    for function in functions {
        let argument = add_type(types, &function.ty)?;
        let result = add_type(types, &function.result)?;
        let whole = add_row(types, TypeRow::Function(argument, result))?;
        numbers.push(whole)?;
    }
    Ok(numbers)
}

/// Where a node of a block over no slots stands.
fn at_start(world: World) -> Around
    ensures { result ≡ record { mode = Only world; depth = 0; arms = 0 } }
{
    Around {
        mode: Mode::Only(world),
        depth: 0,
        arms: 0,
    }
}

/// A declared function's block, of the function's type by number: its closure, its argument and
/// its continuation are in slots 0, 1 and 2.
fn write_function(
    alloc: Global,
    walk: &mut Walk,
    function: &Function,
    whole: usize,
) -> Result<Start, AllocError>
    requires { IsTrue (in_text function.now.body) }
    ensures { IfOk result (WritesFunction walk.old walk.new function.now whole) }
{
    let around = at_start(function.world);
    let parts = function_parts(&walk.types, whole);
    let known = bound(around, Kind::Local, 1, parts.argument);
    let binding = Binding::One(function.parameter as usize, known);
    let place = walk.steps.count();
    let goal = Goal::Tail(2);
    within(alloc, walk, around, 3, goal, binding, &function.body)?;
    Ok(Start {
        entry: Entry::ByCall(around.mode, parts.argument, parts.result),
        place,
    })
}

/// The blocks of the declared functions, in their order.
fn write_functions(
    alloc: Global,
    walk: &mut Walk,
    functions: &[Function],
) -> Result<Vec<Start>, AllocError>
    requires { IsTrue (list_all (λ g. in_text g.body) functions.now) }
    ensures { IfOk result (λ starts. WritesFunctions walk.old walk.new functions.now starts.items) }
{
    let mut starts = Vec::new(alloc);
    for index in 0..functions.len() {
        let whole = declared_number(walk, index);
        let start = write_function(alloc, walk, &functions[index], whole)?;
        starts.push(start)?;
    }
    Ok(starts)
}

/// Main's block, with its closure and unit in slots 0 and 1: the place where it begins.
fn write_main(alloc: Global, walk: &mut Walk, main: &Node) -> Result<usize, AllocError>
    requires { IsTrue (in_text main.now) }
    ensures { IfOk result (WritesMain walk.old walk.new main.now) }
{
    let place = walk.steps.count();
    emit(alloc, walk, at_start(World::Home), 2, Goal::End, main)?;
    Ok(place)
}

/// The blocks of a program, which are those of its conversion to continuation-passing style. At each world they go on
/// as the program does, and pay for their room; a program of n nodes has at most 3 * n + 1.
///
/// The time is proportional to the program's nodes.
pub fn to_cps(alloc: Global, program: &Program) -> Result<Cps, AllocError>
    ensures value { IfOk result (λ cps. blocks_of cps ≡ program_blocks program.now) }
    ensures goes_on { IfOk result (λ cps. GoesOnAs program.now (blocks_of cps)) }
    ensures few { IfOk result (λ cps. IsFewFor program.now (blocks_of cps)) }
{
    let functions = program.functions();
    let mut types = Types::new(alloc)?;
    let declared = declare(alloc, &mut types, functions)?;
    let mut walk = Walk {
        types,
        steps: Steps::new(alloc),
        names: Names::make(alloc),
        functions: declared,
    };
    let starts = write_functions(alloc, &mut walk, functions)?;
    let main = write_main(alloc, &mut walk, program.main())?;
    let Walk {
        types,
        steps,
        names: _,
        functions: _,
    } = walk;
    Ok(Cps::make(types, steps, starts, main))
}
