//! Steps made into blocks: the place of each `If`'s second body is set, and each block is looked
//! at.

ghost use Rattle.std.specs.Prelude.{◌≡◌, ◌+◌, ◌<◌, ◌≤◌, ◌^◌, length, map, IfOk, IfSome, IfNone, MatchOption, slice_get};
ghost use Rattle.m5_machine.specs.Linked.{erased, CanLink, IsLinked};
ghost use Rattle.std.specs.Vec.{vec_len};
ghost use Rattle.std.specs.List.{list_all};
ghost use Rattle.m5_machine.specs.code.Shapes.{HasShapes, IsShape, IsOpen, PlacesSet, SetsPlace, start_fits};

use crate::blocks::{Blocks, NO_BLOCK};
use crate::step::Step;
use std::alloc::{AllocError, Global};

/// What is known of the body that begins at a step.
#[derive(Clone, Copy, PartialEq, Eq, Debug)]
pub struct Shape {
    /// The step behind it.
    pub after: u32,
    /// How many slots it fills along a path, at most.
    pub fills: u32,
    /// How many of its endings are open at once.
    pub depth: u32,
}

/// The body that begins at a step, of those that are known.
fn known(steps: &[Step], shapes: &[Shape], at: usize) -> Shape
    requires shapes { HasShapes steps.now shapes.now }
    requires there { at < length steps.now }
    requires done { length steps.now ≤ at + length shapes.now }
    ensures shape { IsShape steps.now at result }
    ensures fills { result.fills ≤ length steps.now }
    ensures depth { result.depth ≤ length steps.now }
{
    shapes[steps.len() - 1 - at]
}

/// The body that begins at a step, where those behind it are known, the last step's first; none
/// where the steps end before it does.
fn shape_at(steps: &[Step], shapes: &[Shape], at: usize) -> Option<Shape>
    requires shapes { HasShapes steps.now shapes.now }
    requires here { at + length shapes.now + 1 ≡ length steps.now }
    requires small { length steps.now < 4294967295 }
    ensures { MatchOption result (IsOpen steps.now) (IsShape steps.now at) }
{
    let count = steps.len();
    match &steps[at] {
        Step::Fill(_) => {
            if at + 1 == count {
                return None;
            }
            let next = known(steps, shapes, at + 1);
            Some(Shape {
                after: next.after,
                fills: next.fills + 1,
                depth: next.depth,
            })
        }
        Step::If(_, _) => {
            if at + 1 == count {
                return None;
            }
            let first = known(steps, shapes, at + 1);
            let after = first.after as usize;
            if after == count {
                return None;
            }
            let second = known(steps, shapes, after);
            Some(Shape {
                after: second.after,
                fills: first.fills.max(second.fills),
                depth: first.depth.max(second.depth) + 1,
            })
        }
        Step::Go(_, _) => Some(ending(at)),
        Step::Ask(_, _, _) => Some(ending(at)),
        Step::Send(_, _, _) => Some(ending(at)),
        Step::Done => Some(ending(at)),
    }
}

fn ending(at: usize) -> Shape
    requires { at + 1 < 2 ^ 32 }
    ensures { result ≡ record { after = at + 1; fills = 0; depth = 1 } }
{
    Shape {
        after: at as u32 + 1,
        fills: 0,
        depth: 1,
    }
}

/// The bodies that begin at the steps, the last step's first; none where one does not end.
fn measure(alloc: Global, steps: &[Step]) -> Result<Option<Vec<Shape>>, AllocError>
    requires { length steps.now < 4294967295 }
    ensures some { IfOk result (λ o. IfSome o (λ shapes.
        (length shapes.items ≡ length steps.now) × HasShapes steps.now shapes.items)) }
    ensures none { IfOk result (λ o. IfNone o (IsOpen steps.now)) }
{
    let mut shapes = Vec::with_capacity(alloc, steps.len())?;
    for done in 0..steps.len() {
        match shape_at(steps, &shapes, steps.len() - 1 - done) {
            Some(shape) => shapes.push_reserved(shape),
            None => return Ok(None),
        }
    }
    Ok(Some(shapes))
}

/// Sets the place of each `If`'s second body.
fn set_places(steps: &mut Vec<Step>, shapes: &[Shape])
    requires shapes { HasShapes steps.old.items shapes.now }
    requires count { length shapes.now ≡ vec_len steps.old }
    ensures same { map erased steps.new.items ≡ map erased steps.old.items }
    ensures places { PlacesSet steps.old.items steps.new.items }
{
    let count = steps.len();
    for at in 0..count {
        if at + 1 < count {
            let after = shapes[count - 2 - at].after;
            set_place(steps, at, after);
        }
    }
}

/// Sets the place of the second body of the step there, if it is an `If`.
fn set_place(steps: &mut Vec<Step>, at: usize, place: u32)
    requires { at < vec_len steps.old }
    ensures { SetsPlace steps.old.items at place steps.new.items }
{
    match &mut steps[at] {
        Step::If(_, second) => *second = place,
        _ => {}
    }
}

/// Whether a block may begin at a step, or the number stands for no block.
fn start_fits(shapes: &[Shape], start: u32) -> bool
    ensures { result ≡ start_fits shapes.now start }
{
    if start == NO_BLOCK {
        return true;
    }
    if (start as usize) < shapes.len() {
        let shape = shapes[shapes.len() - 1 - start as usize];
        return shape.fills <= 65534 && shape.depth <= 1000;
    }
    false
}

/// Whether each of these places fits.
fn starts_fit(shapes: &[Shape], starts: &[u32]) -> bool
    ensures { result ≡ list_all (start_fits shapes.now) starts.now }
{
    starts.iter().all(|start| start_fits(shapes, *start))
}

/// The blocks that begin at these places of these steps, each `If` with the place of its second
/// body; none where a body does not end, or where at a place no block may begin.
pub fn link(alloc: Global, starts: Vec<u32>, steps: Vec<Step>) -> Result<Option<Blocks>, AllocError>
    ensures some { IfOk result (λ o. IfSome o (IsLinked starts.items steps.items)) }
    ensures none { IfOk result (λ o. IfNone o (CanLink starts.items steps.items → ⊥)) }
{
    let mut steps = steps;
    if steps.len() >= 0xffff_ffff {
        return Ok(None);
    }
    let shapes = match measure(alloc, &steps)? {
        Some(shapes) => shapes,
        None => return Ok(None),
    };
    if !starts_fit(&shapes, &starts) {
        return Ok(None);
    }
    set_places(&mut steps, &shapes);
    Ok(Some(Blocks::of(starts, steps)))
}
