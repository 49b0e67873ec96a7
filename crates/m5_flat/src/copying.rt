//! The same blocks again, in memory of their own.

ghost use Rattle.std.specs.Prelude.{◌≡◌, IfOk};

use crate::label::Label;
use crate::step::Step;
use m5_cps::step::{Constant, Straight};
use m5_terms::listed::Listed;
use std::alloc::{AllocError, Global};

fn constant(alloc: Global, constant: &Constant) -> Result<Constant, AllocError>
    ensures { IfOk result (λ c. c ≡ constant.now) }
{
    match constant {
        Constant::Glob(function) => Ok(Constant::Glob(*function)),
        Constant::Extern(prim) => Ok(Constant::Extern(*prim)),
        Constant::Unit => Ok(Constant::Unit),
        Constant::Bool(truth) => Ok(Constant::Bool(*truth)),
        Constant::Int(number) => Ok(Constant::Int(*number)),
        Constant::Str(text) => Ok(Constant::Str(text.copy(alloc)?)),
        Constant::Addr(world) => Ok(Constant::Addr(*world)),
        Constant::Here => Ok(Constant::Here),
        Constant::Nil(number) => Ok(Constant::Nil(*number)),
    }
}

fn straight(alloc: Global, form: &Straight) -> Result<Straight, AllocError>
    ensures { IfOk result (λ f. f ≡ form.now) }
{
    match form {
        Straight::Constant(leaf) => Ok(Straight::Constant(constant(alloc, leaf)?)),
        Straight::One(operation, slot) => Ok(Straight::One(*operation, *slot)),
        Straight::Two(operation, first, second) => Ok(Straight::Two(*operation, *first, *second)),
        Straight::Unheld(slot) => Ok(Straight::Unheld(*slot)),
        Straight::Unsham(slot) => Ok(Straight::Unsham(*slot)),
        Straight::Spawn(slot) => Ok(Straight::Spawn(*slot)),
    }
}

/// A step again.
pub fn step(alloc: Global, step: &Step) -> Result<Step, AllocError>
    ensures { IfOk result (λ s. s ≡ step.now) }
{
    match step {
        Step::Straight(form) => Ok(Step::Straight(straight(alloc, form)?)),
        Step::Closure { taken, label, next } => Ok(Step::Closure {
            taken: taken.copy(alloc)?,
            label: *label,
            next: *next,
        }),
        Step::Test { test, slot, second } => Ok(Step::Test {
            test: *test,
            slot: *slot,
            second: *second,
        }),
        Step::Ends(ending) => Ok(Step::Ends(*ending)),
    }
}

/// A label again.
pub fn label(alloc: Global, label: &Label) -> Result<Label, AllocError>
    ensures { IfOk result (λ l. l ≡ label.now) }
{
    Ok(Label {
        entry: label.entry,
        environment: label.environment.copy(alloc)?,
        place: label.place,
    })
}

pub(crate) fn steps(alloc: Global, items: &[Step]) -> Result<Listed<Step>, AllocError>
    ensures { IfOk result (λ l. l ≡ items.now) }
{
    let mut list = Listed::make(alloc);
    for item in items {
        list.push(step(alloc, item)?)?;
    }
    Ok(list)
}

pub(crate) fn labels(alloc: Global, items: &[Label]) -> Result<Listed<Label>, AllocError>
    ensures { IfOk result (λ l. l ≡ items.now) }
{
    let mut list = Listed::make(alloc);
    for item in items {
        list.push(label(alloc, item)?)?;
    }
    Ok(list)
}
