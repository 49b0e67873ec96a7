//! The expressions that are made of the last values.

ghost use Rattle.std.specs.Prelude.{IfOk};
ghost use Rattle.m5_tree.specs.ExprMaking.{expr_made};
ghost use Rattle.m5_parse.specs.Gives.{Gives};

use crate::leaf::{add_part, group, literal_of, name_of, nil, no_parts, number_of, plain, tuple};
use crate::several::{binding, case_of_list, case_of_sum, choice_of, infix, leading};
use crate::stack::Stack;
use crate::unary::{lambda, left, prefixed, recursive, right};
use m5_tree::grammar::ExprForm;
use m5_tree::value::Value;
use std::alloc::{AllocError, Global};

/// Makes an expression of the last values, which it takes, if they fit it.
pub(crate) fn build(
    alloc: Global,
    form: ExprForm,
    values: &mut Stack<Value>,
) -> Result<Option<Value>, AllocError>
    ensures { IfOk result (λ o. Gives o values.new (expr_made form values.old)) }
{
    match form {
        ExprForm::OfName => name_of(values),
        ExprForm::OfNumber => number_of(values),
        ExprForm::OfLiteral => literal_of(values),
        ExprForm::OfPlain(word) => plain(word, values),
        ExprForm::OfNil => nil(values),
        ExprForm::OfPrefix(word) => prefixed(alloc, word, values),
        ExprForm::OfInl => left(alloc, values),
        ExprForm::OfInr => right(alloc, values),
        ExprForm::OfFn => lambda(alloc, values),
        ExprForm::OfRec => recursive(alloc, values),
        ExprForm::OfInfix(form) => infix(alloc, form, values),
        ExprForm::OfLeading(form) => leading(alloc, form, values),
        ExprForm::OfBinding(word) => binding(alloc, word, values),
        ExprForm::OfIf => choice_of(alloc, values),
        ExprForm::OfCaseSum => case_of_sum(alloc, values),
        ExprForm::OfCaseList => case_of_list(alloc, values),
        ExprForm::NoParts => no_parts(alloc, values),
        ExprForm::AddPart => add_part(values),
        ExprForm::OfTuple => tuple(values),
        ExprForm::Group => group(values),
    }
}
