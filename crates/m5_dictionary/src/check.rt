//! Whether lines and labels are those of dictionaries.

ghost use Rattle.std.specs.Prelude.{◌≡◌, ◌<◌, ◌↔◌, IsTrue, All, ℕ, length, slice_get, Some};
ghost use Rattle.m5_dictionary.specs.Dictionaries.{IsLine, IsTypeTable, IsEntrance, AreLabels};
ghost use Rattle.m5_dictionary.specs.declared.line.TypeLine.{TypeLine as Line};

use crate::label::Label;
use crate::line::{TypeLine, is_same_line};
use m5_terms::types::{World, is_same_world};

/// Whether the parts of a line are below a number, its own.
fn is_line(own: usize, line: TypeLine) -> bool
    ensures { IsTrue result ↔ IsLine own line }
{
    match line {
        TypeLine::Pair(first, second) | TypeLine::Sum(first, second) => {
            (first as usize) < own && (second as usize) < own
        }
        TypeLine::List(part) | TypeLine::Fun(part) => (part as usize) < own,
        TypeLine::Addr(world) => !is_same_world(world, World::Any),
        TypeLine::Unit | TypeLine::Bool | TypeLine::Int | TypeLine::Text | TypeLine::Cell => true,
    }
}

/// Whether a line stands among others.
fn is_among(lines: &[TypeLine], line: TypeLine) -> bool
    ensures { IsTrue result ↔ ((n : ℕ) × (slice_get lines.now n ≡ Some line)) }
{
    for other in lines {
        if is_same_line(*other, line) {
            return true;
        }
    }
    false
}

/// Whether lines are a type table: each part of a line is an earlier one, each line stands once, and
/// no address is of `Any`.
pub fn are_lines(types: &[TypeLine]) -> bool
    ensures { IsTrue result ↔ IsTypeTable types.now }
{
    if types.len() > 0xffff_ffff {
        return false;
    }
    for own in 0..types.len() {
        if !is_line(own, types[own]) {
            return false;
        }
        if is_among(&types[..own], types[own]) {
            return false;
        }
    }
    true
}

/// Whether type ids are below how many there are.
fn are_below(ids: &[u32], types: usize) -> bool
    ensures { IsTrue result ↔ All (λ id. id < types) ids.now }
{
    ids.iter().all(|id| (*id as usize) < types)
}

fn is_label(types: usize, label: &Label) -> bool
    ensures { IsTrue result ↔ IsEntrance types label.now }
{
    (label.argument() as usize) < types
        && label.environment().len() <= 65534
        && are_below(label.environment(), types)
}

/// Whether these are labels over so many types: at most 65,535, each with type ids below and at most
/// 65,534 of them in its environment.
pub fn are_labels(types: usize, labels: &[Label]) -> bool
    ensures { IsTrue result ↔ AreLabels types labels.now }
{
    if labels.len() > 65535 {
        return false;
    }
    labels.iter().all(|label| is_label(types, label))
}
