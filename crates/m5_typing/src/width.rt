//! The width of a program.

ghost use Rattle.std.specs.Prelude.{◌≡◌, ◌*◌, ◌≤◌, length, All};
ghost use Rattle.m5_terms.specs.Expression.{node_count};
ghost use Rattle.m5_terms.specs.Opened.{viewed_unary};
ghost use Rattle.m5_terms.specs.Substitution.{unary_binders, binary_binders, second_binders, third_binders};
ghost use Rattle.m5_typing.specs.Width.{term_width, functions_width, program_width, IsBounded};

use crate::functions::Function;
use crate::program::Program;
use m5_terms::form::{BinaryForm, TernaryForm};
use m5_terms::node::Node;
use m5_terms::opened::{Opened, UnaryView};

fn binders_in_part(form: &UnaryView<'_>) -> u32
    ensures count { result ≡ length (unary_binders (viewed_unary form.now)) }
    ensures few { result ≤ 2 }
{
    match form {
        UnaryView::Fn(_, _) => 1,
        UnaryView::Rec(_, _, _, _) => 2,
        _ => 0,
    }
}

fn binders_in_second(form: BinaryForm) -> u32
    ensures count { result ≡ length (binary_binders form) }
    ensures few { result ≤ 1 }
{
    match form {
        BinaryForm::Val(_) | BinaryForm::Put(_) | BinaryForm::Leta(_) | BinaryForm::Lets(_) => 1,
        _ => 0,
    }
}

fn binders_in_arms(form: TernaryForm) -> (u32, u32)
    ensures second { result.0 ≡ length (second_binders form) }
    ensures third { result.1 ≡ length (third_binders form) }
    ensures few { (result.0 ≤ 2) × (result.1 ≤ 2) }
{
    match form {
        TernaryForm::If => (0, 0),
        TernaryForm::CaseSum(_, _) => (1, 1),
        TernaryForm::CaseList(_, _) => (0, 2),
    }
}

fn width_of_term(node: &Node) -> u32
    requires { IsBounded node.now }
    ensures value { result ≡ term_width node.now }
    ensures bound { result ≤ 3 * node_count node.now }
{
    match node.open() {
        Opened::Leaf(_) => 0,
        Opened::Unary(form, first) => binders_in_part(&form) + width_of_term(first),
        Opened::Binary(form, first, second) => {
            let below = 1 + (binders_in_second(form) + width_of_term(second));
            width_of_term(first).max(below)
        }
        Opened::Ternary(form, first, second, third) => {
            let (in_second, in_third) = binders_in_arms(form);
            let below_second = 1 + (in_second + width_of_term(second));
            let below_third = 1 + (in_third + width_of_term(third));
            width_of_term(first).max(below_second.max(below_third))
        }
    }
}

fn width_of_functions(functions: &[Function]) -> u32
    requires { All (λ g. IsBounded g.body) functions.now }
    ensures { result ≡ functions_width functions.now }
{
    let mut widest: u32 = 0;
    for function in functions {
        widest = widest.max(1 + width_of_term(&function.body));
    }
    widest
}

/// The greatest number, over the program's nodes, of the binders that the path from the top of its
/// declaration goes under, the declaration's own parameter among them, and of the path's moves
/// into a part that is not the first. A move that does both counts twice.
pub fn width(program: &Program) -> u32
    ensures { result ≡ program_width program.now }
{
    width_of_functions(program.functions()).max(width_of_term(program.main()))
}
