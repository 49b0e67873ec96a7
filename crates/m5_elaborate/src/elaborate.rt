//! Typed programs from resolved ones.

ghost use Rattle.std.specs.Prelude.{◌≡◌, ◌≢◌, ◌<◌, ◌^◌, [], IfErr, IfOk, OnOk};
ghost use Rattle.m5_raw.specs.Resolved.{node_count};
ghost use Rattle.m5_raw.specs.RawTerm.{IsRaw};
ghost use Rattle.m5_terms.specs.Table.{entries};
ghost use Rattle.m5_terms.specs.Outcome.{found};
ghost use Rattle.m5_elaborate.specs.Outcome.{Ends, IsFault};
ghost use Rattle.m5_elaborate.specs.Names.{IsBare};
ghost use Rattle.m5_elaborate.specs.Checked.{function_checked, main_checked, rest_elaborated, elaborated};
ghost use Rattle.m5_elaborate.specs.Erased.{erased_program};
ghost use Rattle.m5_elaborate.specs.declared.end.TypeEnd.TheVariants.{Memory};
ghost use Rattle.m5_typing.specs.Program.{IsProgram};

use crate::check::{check, within};
use crate::end::TypeEnd;
use crate::erase::{erase, functions};
use crate::names::{Bound, Names};
use crate::parts::if_same_type;
use crate::size::limited;
use crate::synthesis::function_of;
use m5_raw::function::Function;
use m5_raw::raw::Raw;
use m5_terms::table::Binding;
use m5_terms::types::{Shape, Ty, World, is_same};
use m5_typing::program::Program;
use std::alloc::Global;

/// The type of a declared function, whose body may use the functions up to itself. No name is bound outside.
fn check_function(
    alloc: Global,
    known: &[Function],
    names: &mut Names,
    function: &Function,
) -> Result<Ty, TypeEnd>
    requires bare { IsBare (entries names.old) }
    requires room { node_count function.now.body < 2 ^ 32 }
    ensures ends { Ends result (function_checked known.now function.now) }
    ensures names { OnOk result (entries names.new ≡ entries names.old) }
{
    let ty = function.ty.copy()?;
    let whole = function_of(alloc, ty, function.result.copy()?)?;
    let whole = limited(function.place, whole)?;
    let ty = function.ty.copy()?;
    let binding = Binding::One(
        function.parameter as usize,
        Bound::Local(function.world, ty),
    );
    let body = within(
        alloc,
        known,
        names,
        0,
        function.world,
        binding,
        &function.body,
    )?;
    if_same_type(is_same(&body, &function.result), function.place, whole)
}

/// Looks at the declared functions in their order.
fn check_functions(alloc: Global, names: &mut Names, raw: &Raw) -> Result<(), TypeEnd>
    requires { IsBare (entries names.old) }
    ensures limits { IsRaw raw.now }
    ensures value { OnOk result (elaborated raw.now ≡ rest_elaborated raw.now.functions [] raw.now) }
    ensures names { OnOk result (entries names.new ≡ entries names.old) }
    ensures fault { IfErr result (IsFault (elaborated raw.now)) }
{
    let items = raw.functions();
    for index in 0..items.len() {
        check_function(alloc, &items[..index + 1], names, &items[index])?;
    }
    Ok(())
}

/// The type of the main term, which has to be unit.
fn check_main(alloc: Global, names: &mut Names, raw: &Raw) -> Result<Ty, TypeEnd>
    requires { IsBare (entries names.old) }
    ensures { Ends result (main_checked raw.now) }
{
    let known = raw.functions();
    let ty = check(alloc, known, names, 0, World::Home, raw.main())?;
    let same = is_same(&ty, &Ty::new(Shape::Unit));
    if_same_type(same, raw.place(), ty)
}

/// The typed program of a resolved one: its terms without their places.
///
/// It is refused at the first check that fails. Functions are looked at in their order, and then the main term; the parts
/// of a node from left to right, then its own checks, and last the size of its type, which has at most 1,024 nodes.
pub fn elaborate(alloc: Global, raw: &Raw) -> Result<Program, TypeEnd>
    ensures found { IfOk result (λ program. elaborated raw.now ≡ found program) }
    ensures erased { IfOk result (λ program. program ≡ erased_program raw.now) }
    ensures fault { IfErr result (IsFault (elaborated raw.now)) }
    ensures untyped { IfErr result (λ e. e ≢ Memory → IsProgram (erased_program raw.now) → ⊥) }
{
    let mut names = Names::make(alloc);
    check_functions(alloc, &mut names, raw)?;
    check_main(alloc, &mut names, raw)?;
    let items = functions(alloc, raw.functions())?;
    let main = erase(alloc, raw.main())?;
    Ok(Program::make(items, main))
}
