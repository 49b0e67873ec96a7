//! The first form, as far as names decide it.

ghost use Rattle.std.specs.Prelude.{◌≡◌, slice_get};
ghost use Rattle.std.specs.List.{list_all};
ghost use Rattle.m5_first.specs.Form.{first_form, is_say_name, keeps_say};

use m5_tree::expr::{Expr, Shape};
use m5_tree::form::BinaryForm;
use m5_tree::names::Names;
use m5_tree::tree::{Extern, Tree};

/// Whether the name of a number is `say`.
fn is_say(names: &Names, name: usize) -> bool
    ensures { result ≡ is_say_name (slice_get names.now name) }
{
    match names.get(name) {
        Some(text) => text == b"say".as_slice(),
        None => false,
    }
}

/// Whether each extern is `say`.
fn are_say(names: &Names, externs: &[Extern]) -> bool
    ensures { result ≡ list_all (λ x. is_say_name (slice_get names.now x.name)) externs.now }
{
    externs.iter().all(|x: &Extern| is_say(names, x.name))
}

/// Whether no `val` among declarations gives `say` another meaning.
#[tactic(auto, using(crate::proofs::Tuples::tuple_keeps))]
fn keeps(names: &Names, expr: &Expr) -> bool
    ensures { result ≡ keeps_say names.now expr.now }
{
    match &expr.shape {
        Shape::Binary(form, first, second) => match form {
            BinaryForm::Val(name) => !is_say(names, *name) && keeps(names, second.get()),
            BinaryForm::Do => keeps(names, first.get()) && keeps(names, second.get()),
            _ => true,
        },
        Shape::Leaf(_) | Shape::Unary(_, _) | Shape::Ternary(_, _, _, _) => true,
        Shape::Tuple(_) => true,
    }
}

/// Whether a program declares no extern but `say`, and no `val` gives that name another meaning. It is then of the first
/// form exactly where `run` of `walk` answers a history.
pub fn is_first_form(tree: &Tree) -> bool
    ensures { result ≡ first_form tree.now.names tree.now.program }
{
    let declarations = &tree.program.declarations;
    if !are_say(&tree.names, declarations.externs.as_slice()) {
        return false;
    }
    keeps(&tree.names, &tree.program.body)
}
