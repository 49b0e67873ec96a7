//! Forms without parts.

ghost use Rattle.std.specs.Prelude.{IfOk, IsTrue};
ghost use Rattle.m5_terms.specs.Expression.{leaf};
ghost use Rattle.m5_terms.specs.InText.{leaf_in_text};
ghost use Rattle.m5_terms.specs.Opened.{viewed_leaf};
ghost use Rattle.m5_terms.specs.Primitives.{primitive_type};
ghost use Rattle.m5_terms.specs.TypeExpression as type;
ghost use Rattle.m5_terms.specs.declared.form.LeafForm.TheVariants as leaf_form;
ghost use Rattle.m5_cps.specs.TypesByNumber.{row_type};
ghost use Rattle.m5_cps.specs.declared.step.Constant.TheVariants as constants;
ghost use Rattle.m5_cps_convert.specs.code.Emitting.{Emits, IsLeaf, IsOther};
ghost use Rattle.m5_cps_convert.specs.code.Leaves.{MakesLeaf};

use crate::names::{declared_number, see};
use crate::types::{add_row, add_type};
use crate::walk::{Around, Goal, Value, Walk};
use crate::writing::{give, go_on};
use m5_cps::step::{Constant, Straight};
use m5_cps::types::TypeRow;
use m5_terms::opened::LeafView;
use m5_terms::types::{Prim, Ty};
use std::alloc::{AllocError, Global};

/// A form without parts as a constant, and its type.
#[derive(Drop)]
pub struct Leaf {
    pub constant: Constant,
    pub ty: usize,
}

fn make_leaf(walk: &mut Walk, constant: Constant, row: TypeRow) -> Result<Leaf, AllocError>
    ensures { IfOk result (MakesLeaf walk.old walk.new constant (row_type walk.old.types row)) }
{
    let ty = add_row(&mut walk.types, row)?;
    Ok(Leaf { constant, ty })
}

fn make_primitive(alloc: Global, walk: &mut Walk, prim: Prim) -> Result<Leaf, AllocError>
    ensures { IfOk result (MakesLeaf walk.old walk.new (constants.Extern prim) (primitive_type prim)) }
{
    let ty = add_type(&mut walk.types, &prim.ty(alloc)?)?;
    Ok(Leaf {
        constant: Constant::Extern(prim),
        ty,
    })
}

/// The empty list, whose elements have a written type.
fn make_nil(walk: &mut Walk, around: Around, element: &Ty) -> Result<Leaf, AllocError>
    ensures { IfOk result (IsLeaf walk.old walk.new around (leaf_form.Nil element.now)) }
{
    let content = add_type(&mut walk.types, element)?;
    let ty = add_row(&mut walk.types, TypeRow::List(content))?;
    Ok(Leaf {
        constant: Constant::Nil(content),
        ty,
    })
}

fn make_declared(walk: &mut Walk, around: Around, function: u32) -> Result<Leaf, AllocError>
    ensures { IfOk result (IsLeaf walk.old walk.new around (leaf_form.Glob function)) }
{
    Ok(Leaf {
        constant: Constant::Glob(function),
        ty: declared_number(walk, function as usize),
    })
}

/// A form that is no variable.
fn leaf_of(
    alloc: Global,
    walk: &mut Walk,
    around: Around,
    form: LeafView<'_>,
) -> Result<Leaf, AllocError>
    requires text { IsTrue (leaf_in_text (viewed_leaf form)) }
    requires other { IsOther (viewed_leaf form) }
    ensures { IfOk result (IsLeaf walk.old walk.new around (viewed_leaf form.entry)) }
{
    match form {
        LeafView::Glob(function) => make_declared(walk, around, function),
        LeafView::Extern(prim) => make_primitive(alloc, walk, prim),
        LeafView::Unit => make_leaf(walk, Constant::Unit, TypeRow::Unit),
        LeafView::Bool(b) => make_leaf(walk, Constant::Bool(b), TypeRow::Bool),
        LeafView::Int(n) => make_leaf(walk, Constant::Int(n), TypeRow::Int),
        LeafView::Str(text) => make_leaf(walk, Constant::Str(text.copy(alloc)?), TypeRow::Str),
        LeafView::Addr(world) => make_leaf(walk, Constant::Addr(world), TypeRow::Address(world)),
        LeafView::Here => make_leaf(walk, Constant::Here, TypeRow::Address(around.mode.world())),
        LeafView::Nil(element) => make_nil(walk, around, element),
        LeafView::Var(_) | LeafView::Valid(_) | LeafView::CellAt(_, _) => unreachable!(),
    }
}

/// A variable makes no code of its own.
fn emit_variable(
    walk: &mut Walk,
    around: Around,
    filled: u32,
    goal: Goal,
    number: u32,
) -> Result<Value, AllocError>
    ensures local { IfOk result (Emits walk.old walk.new around filled goal (leaf (leaf_form.Var number))) }
    ensures valid { IfOk result (Emits walk.old walk.new around filled goal (leaf (leaf_form.Valid number))) }
{
    let seen = see(walk, around.depth, number);
    match seen.slot {
        Some(slot) => go_on(walk, slot, filled, goal, seen.ty),
        None => give(
            walk,
            Straight::Constant(Constant::Unit),
            filled,
            goal,
            seen.ty,
        ),
    }
}

/// A form without parts.
pub(crate) fn emit_leaf(
    alloc: Global,
    walk: &mut Walk,
    around: Around,
    filled: u32,
    goal: Goal,
    form: LeafView<'_>,
) -> Result<Value, AllocError>
    requires { IsTrue (leaf_in_text (viewed_leaf form)) }
    ensures { IfOk result (Emits walk.old walk.new around filled goal (leaf (viewed_leaf form.entry))) }
{
    match form {
        LeafView::Var(number) | LeafView::Valid(number) => {
            emit_variable(walk, around, filled, goal, number)
        }
        _ => {
            let leaf = leaf_of(alloc, walk, around, form)?;
            give(
                walk,
                Straight::Constant(leaf.constant),
                filled,
                goal,
                leaf.ty,
            )
        }
    }
}
