//! Which variables a form binds in a part.

ghost use Rattle.std.specs.Prelude.{◌≡◌, Bool};
ghost use Rattle.m5_terms.specs.Opened.{viewed_unary};
ghost use Rattle.m5_terms.specs.Substitution.{among, unary_binders, binary_binders, second_binders, third_binders};

use crate::form::{BinaryForm, TernaryForm};
use crate::opened::UnaryView;

impl UnaryView<'_> {
    pub fn binds(&self, variable: u32) -> bool
        ensures { result ≡ among variable (unary_binders (viewed_unary self.now)) }
    {
        match self {
            UnaryView::Fn(var, _) => variable == *var,
            UnaryView::Rec(function, parameter, _, _) => variable == *parameter
                || variable == *function,
            _ => false,
        }
    }
}

impl BinaryForm {
    pub fn binds(&self, variable: u32) -> bool
        ensures { result ≡ among variable (binary_binders self.now) }
    {
        match self {
            BinaryForm::Val(var)
            | BinaryForm::Put(var)
            | BinaryForm::Leta(var)
            | BinaryForm::Lets(var) => variable == *var,
            _ => false,
        }
    }
}

impl TernaryForm {
    pub fn binds_in_second(&self, variable: u32) -> bool
        ensures { result ≡ among variable (second_binders self.now) }
    {
        match self {
            TernaryForm::CaseSum(var, _) => variable == *var,
            _ => false,
        }
    }

    pub fn binds_in_third(&self, variable: u32) -> bool
        ensures { result ≡ among variable (third_binders self.now) }
    {
        match self {
            TernaryForm::If => false,
            TernaryForm::CaseSum(_, other) => variable == *other,
            TernaryForm::CaseList(head, tail) => variable == *tail || variable == *head,
        }
    }
}
