//! The types of terms.

ghost use Rattle.std.specs.Prelude.{◌≡◌, ◌+◌, ◌<◌, ◌^◌, IfErr, IfOk, OnOk};
ghost use Rattle.m5_raw.specs.Resolved.{unary, binary, ternary, node_count};
ghost use Rattle.m5_terms.specs.Opened.{viewed_unary};
ghost use Rattle.m5_terms.specs.Table.{entries};
ghost use Rattle.m5_terms.specs.declared.form.BinaryForm.TheVariants.{Pair};
ghost use Rattle.m5_elaborate.specs.Outcome.{Ends};
ghost use Rattle.m5_elaborate.specs.Names.{context, under, IsShallow};
ghost use Rattle.m5_elaborate.specs.Checked.{checked, signatures};

use crate::arms::{
    binding_of_part, depth_of_part, in_arms, in_second_part, of_ternary, world_of_part,
};
use crate::end::TypeEnd;
use crate::names::{Bound, Names, enter};
use crate::pairs::{pair_up, place_of_node, wait};
use crate::size::limited;
use crate::synthesis::{of_binary, of_leaf, of_unary};
use m5_lex::Place;
use m5_raw::function::Function;
use m5_raw::node::Node;
use m5_terms::form::{BinaryForm, TernaryForm};
use m5_terms::opened::{Opened, UnaryView};
use m5_terms::table::Binding;
use m5_terms::types::{Ty, World};
use std::alloc::Global;

/// The type of a part in which the variables of a form are bound. The names are then as before.
#[cycle(check)]
pub(crate) fn within(
    alloc: Global,
    known: &[Function],
    names: &mut Names,
    depth: u32,
    world: World,
    binding: Binding<Bound>,
    node: &Node,
) -> Result<Ty, TypeEnd>
    requires shallow { IsShallow depth (entries names.old) }
    requires room { depth + node_count node.now < 2 ^ 32 }
    ensures ends { Ends result (checked (signatures known.now) (under binding (context depth (entries names.old))) world node.now) }
    ensures names { OnOk result (entries names.new ≡ entries names.old) }
{
    let outer = enter(names, depth, binding)?;
    let ty = check(alloc, known, names, depth, world, node)?;
    names.leave(outer)?;
    Ok(ty)
}

#[cycle(check)]
fn check_unary(
    alloc: Global,
    known: &[Function],
    names: &mut Names,
    depth: u32,
    world: World,
    place: Place,
    form: UnaryView<'_>,
    first: &Node,
) -> Result<Ty, TypeEnd>
    requires shallow { IsShallow depth (entries names.old) }
    requires room { depth + node_count (unary place (viewed_unary form) first.now) < 2 ^ 32 }
    ensures ends { Ends result (checked (signatures known.now) (context depth (entries names.old)) world (unary place (viewed_unary form.entry) first.now)) }
    ensures names { OnOk result (entries names.new ≡ entries names.old) }
{
    let inside = world_of_part(&form, world);
    let deeper = depth_of_part(&form, depth);
    let binding = binding_of_part(alloc, &form, world)?;
    let part = within(alloc, known, names, deeper, inside, binding, first)?;
    let whole = of_unary(alloc, form, place, world, first, part)?;
    limited(place, whole)
}

#[cycle(check)]
fn check_binary(
    alloc: Global,
    known: &[Function],
    names: &mut Names,
    depth: u32,
    world: World,
    place: Place,
    form: BinaryForm,
    first: &Node,
    second: &Node,
) -> Result<Ty, TypeEnd>
    requires shallow { IsShallow depth (entries names.old) }
    requires room { depth + node_count (binary place form first.now second.now) < 2 ^ 32 }
    ensures ends { Ends result (checked (signatures known.now) (context depth (entries names.old)) world (binary place form first.now second.now)) }
    ensures names { OnOk result (entries names.new ≡ entries names.old) }
{
    let first = check(alloc, known, names, depth, world, first)?;
    let inside = in_second_part(alloc, form, place, world, &first)?;
    let second = within(
        alloc,
        known,
        names,
        depth,
        inside.world,
        inside.binding,
        second,
    )?;
    let whole = of_binary(alloc, form, place, first, second)?;
    limited(place, whole)
}

/// The type of nested pairs: their first parts from left to right, the last part, and then their types from inside.
#[cycle(check)]
fn check_pairs(
    alloc: Global,
    known: &[Function],
    names: &mut Names,
    depth: u32,
    world: World,
    place: Place,
    first: &Node,
    second: &Node,
) -> Result<Ty, TypeEnd>
    requires shallow { IsShallow depth (entries names.old) }
    requires room { depth + node_count (binary place Pair first.now second.now) < 2 ^ 32 }
    ensures ends { Ends result (checked (signatures known.now) (context depth (entries names.old)) world (binary place Pair first.now second.now)) }
    ensures names { OnOk result (entries names.new ≡ entries names.old) }
{
    let mut waiting = Vec::new(alloc);
    let ty = check(alloc, known, names, depth, world, first)?;
    wait(&mut waiting, place, ty)?;
    let mut rest = second;
    while let Opened::Binary(BinaryForm::Pair, part, later) = rest.open() {
        let ty = check(alloc, known, names, depth, world, part)?;
        wait(&mut waiting, place_of_node(rest), ty)?;
        rest = later;
    }
    let last = check(alloc, known, names, depth, world, rest)?;
    pair_up(alloc, waiting, last)
}

#[cycle(check)]
fn check_ternary(
    alloc: Global,
    known: &[Function],
    names: &mut Names,
    depth: u32,
    world: World,
    place: Place,
    form: TernaryForm,
    first: &Node,
    second: &Node,
    third: &Node,
) -> Result<Ty, TypeEnd>
    requires shallow { IsShallow depth (entries names.old) }
    requires room { depth + node_count (ternary place form first.now second.now third.now) < 2 ^ 32 }
    ensures ends { Ends result (checked (signatures known.now) (context depth (entries names.old)) world (ternary place form first.now second.now third.now)) }
    ensures names { OnOk result (entries names.new ≡ entries names.old) }
{
    let first = check(alloc, known, names, depth, world, first)?;
    let bound = in_arms(alloc, form, place, world, &first)?;
    let second = within(alloc, known, names, depth, world, bound.second, second)?;
    let third = within(alloc, known, names, depth, world, bound.third, third)?;
    let whole = of_ternary(form, place, &first, second, &third)?;
    limited(place, whole)
}

/// The type of a term at a world, or the first fault in it. The names are then as before.
#[cycle(check)]
pub(crate) fn check(
    alloc: Global,
    known: &[Function],
    names: &mut Names,
    depth: u32,
    world: World,
    node: &Node,
) -> Result<Ty, TypeEnd>
    requires shallow { IsShallow depth (entries names.old) }
    requires room { depth + node_count node.now < 2 ^ 32 }
    ensures ends { Ends result (checked (signatures known.now) (context depth (entries names.old)) world node.now) }
    ensures names { OnOk result (entries names.new ≡ entries names.old) }
{
    let place = node.place;
    match node.open() {
        Opened::Leaf(form) => {
            let whole = of_leaf(alloc, known, names, depth, world, place, form)?;
            limited(place, whole)
        }
        Opened::Unary(form, first) => {
            check_unary(alloc, known, names, depth, world, place, form, first)
        }
        Opened::Binary(BinaryForm::Pair, first, second) => {
            check_pairs(alloc, known, names, depth, world, place, first, second)
        }
        Opened::Binary(form, first, second) => {
            check_binary(
                alloc, known, names, depth, world, place, form, first, second,
            )
        }
        Opened::Ternary(form, first, second, third) => check_ternary(
            alloc, known, names, depth, world, place, form, first, second, third,
        ),
    }
}
