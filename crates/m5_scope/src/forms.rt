//! The forms of resolved terms, with the next numbers for what they bind.

ghost use Rattle.std.specs.Prelude.{◌≡◌, ◌+◌, ◌<◌, ◌≤◌, ◌^◌, IfOk};
ghost use Rattle.m5_scope.specs.Forms.{unary_resolved, unary_binding, unary_count, binary_resolved, binary_binding, binary_count, ternary_resolved, second_binding, third_binding, second_count, third_count};

use crate::meaning::Meaning;
use crate::written::written;
use m5_terms::form::{BinaryForm, TernaryForm, UnaryForm};
use m5_terms::table::Binding;
use m5_tree::form::{BinaryForm as BinaryTree, TernaryForm as TernaryTree, UnaryForm as UnaryTree};
use std::alloc::{AllocError, Global};

/// A form of one part, whose binders have numbers from this one on.
pub(crate) fn unary_form(
    alloc: Global,
    number: u32,
    form: &UnaryTree,
) -> Result<UnaryForm, AllocError>
    requires { number + unary_count form.now < 2 ^ 32 }
    ensures { IfOk result (λ f. f ≡ unary_resolved number form.now) }
{
    match form {
        UnaryTree::Fn(_, ty) => Ok(UnaryForm::Fn(number, written(alloc, ty)?)),
        UnaryTree::Rec(_, _, ty, codomain) => {
            let domain = written(alloc, ty)?;
            Ok(UnaryForm::Rec(number, number + 1, domain, written(alloc, codomain)?))
        }
        UnaryTree::Fst => Ok(UnaryForm::Fst),
        UnaryTree::Snd => Ok(UnaryForm::Snd),
        UnaryTree::Load => Ok(UnaryForm::Load),
        UnaryTree::NewCell => Ok(UnaryForm::NewCell),
        UnaryTree::Hold => Ok(UnaryForm::Hold),
        UnaryTree::Sham => Ok(UnaryForm::Sham),
        UnaryTree::StrOf => Ok(UnaryForm::StrOf),
        UnaryTree::Div => Ok(UnaryForm::Div),
        UnaryTree::Inl(ty) => Ok(UnaryForm::Inl(written(alloc, ty)?)),
        UnaryTree::Inr(ty) => Ok(UnaryForm::Inr(written(alloc, ty)?)),
        UnaryTree::Spawn => Ok(UnaryForm::Spawn),
    }
}

/// What a form of one part binds, and how many binders that is.
pub(crate) fn in_unary(number: u32, form: &UnaryTree) -> (Binding<Meaning>, u32)
    requires { number + unary_count form.now < 2 ^ 32 }
    ensures binding { result.0 ≡ unary_binding number form.now }
    ensures count { result.1 ≡ unary_count form.now }
{
    match form {
        UnaryTree::Fn(name, _) => (Binding::One(*name, Meaning::Var(number)), 1),
        UnaryTree::Rec(function, parameter, _, _) => (
            Binding::Two(
                *parameter,
                Meaning::Var(number + 1),
                *function,
                Meaning::Var(number),
            ),
            2,
        ),
        _ => (Binding::Nothing, 0),
    }
}

/// A form of two parts, whose binder has this number.
pub(crate) fn binary_form(number: u32, form: BinaryTree) -> BinaryForm
    ensures { result ≡ binary_resolved number form }
{
    match form {
        BinaryTree::Call => BinaryForm::Call,
        BinaryTree::Pair => BinaryForm::Pair,
        BinaryTree::Cons => BinaryForm::Cons,
        BinaryTree::Store => BinaryForm::Store,
        BinaryTree::Binary(op) => BinaryForm::Binary(op),
        BinaryTree::Get => BinaryForm::Get,
        BinaryTree::Do => BinaryForm::Do,
        BinaryTree::Val(_) => BinaryForm::Val(number),
        BinaryTree::Put(_) => BinaryForm::Put(number),
        BinaryTree::Leta(_) => BinaryForm::Leta(number),
        BinaryTree::Lets(_) => BinaryForm::Lets(number),
    }
}

/// What a form of two parts binds in its second, and how many binders that is.
pub(crate) fn in_binary(number: u32, form: BinaryTree) -> (Binding<Meaning>, u32)
    ensures binding { result.0 ≡ binary_binding number form }
    ensures count { result.1 ≡ binary_count form }
{
    match form {
        BinaryTree::Val(name) | BinaryTree::Leta(name) => {
            (Binding::One(name, Meaning::Var(number)), 1)
        }
        BinaryTree::Put(name) | BinaryTree::Lets(name) => {
            (Binding::One(name, Meaning::Valid(number)), 1)
        }
        _ => (Binding::Nothing, 0),
    }
}

/// A form of three parts, by the first number of the second part's binders and that of the third's.
pub(crate) fn ternary_form(second: u32, third: u32, form: TernaryTree) -> TernaryForm
    requires { third + third_count form < 2 ^ 32 }
    ensures { result ≡ ternary_resolved second third form }
{
    match form {
        TernaryTree::If => TernaryForm::If,
        TernaryTree::CaseSum(_, _) => TernaryForm::CaseSum(second, third),
        TernaryTree::CaseList(_, _) => TernaryForm::CaseList(third, third + 1),
    }
}

/// What a form of three parts binds in its second, and how many binders that is.
pub(crate) fn in_second(number: u32, form: TernaryTree) -> (Binding<Meaning>, u32)
    ensures binding { result.0 ≡ second_binding number form }
    ensures count { result.1 ≡ second_count form }
{
    match form {
        TernaryTree::CaseSum(name, _) => (Binding::One(name, Meaning::Var(number)), 1),
        _ => (Binding::Nothing, 0),
    }
}

/// What a form of three parts binds in its third, and how many binders that is.
pub(crate) fn in_third(number: u32, form: TernaryTree) -> (Binding<Meaning>, u32)
    requires { number + third_count form < 2 ^ 32 }
    ensures binding { result.0 ≡ third_binding number form }
    ensures count { result.1 ≡ third_count form }
{
    match form {
        TernaryTree::If => (Binding::Nothing, 0),
        TernaryTree::CaseSum(_, name) => (Binding::One(name, Meaning::Var(number)), 1),
        TernaryTree::CaseList(head, tail) => (
            Binding::Two(tail, Meaning::Var(number + 1), head, Meaning::Var(number)),
            2,
        ),
    }
}
