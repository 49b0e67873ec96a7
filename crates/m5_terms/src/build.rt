//! Terms and nodes made of a form and its parts.

ghost use Rattle.std.specs.Prelude.{◌≡◌};
ghost use Rattle.m5_terms.specs.Expression.{leaf, unary, binary, ternary};
ghost use Rattle.m5_terms.specs.TermMeaning.{parts};
ghost use Rattle.m5_terms.specs.declared.taken.Taken.TheVariants as of_taken;

use crate::form::{BinaryForm, LeafForm, TernaryForm, UnaryForm};
use crate::node::{Node, NodeBox};
use crate::term::Term;

impl<B> Term<B> {
    pub fn leaf(form: LeafForm) -> Term<B>
        ensures { parts result ≡ of_taken.Leaf form }
    {
        match form {
            LeafForm::Var(x) => Term::Var(x),
            LeafForm::Valid(x) => Term::Valid(x),
            LeafForm::Glob(x) => Term::Glob(x),
            LeafForm::Extern(prim) => Term::Extern(prim),
            LeafForm::Unit => Term::Unit,
            LeafForm::Bool(b) => Term::Bool(b),
            LeafForm::Int(n) => Term::Int(n),
            LeafForm::Str(text) => Term::Str(text),
            LeafForm::Addr(world) => Term::Addr(world),
            LeafForm::Here => Term::Here,
            LeafForm::Nil(ty) => Term::Nil { ty },
            LeafForm::CellAt(world, cell) => Term::CellAt(world, cell),
        }
    }

    pub fn unary(form: UnaryForm, first: B) -> Term<B>
        ensures { parts result ≡ of_taken.Unary form first }
    {
        match form {
            UnaryForm::Fn(var, ty) => Term::Fn { var, ty, first },
            UnaryForm::Rec(var, other, ty, result) => Term::Rec {
                var,
                other,
                ty,
                result,
                first,
            },
            UnaryForm::Fst => Term::Fst { first },
            UnaryForm::Snd => Term::Snd { first },
            UnaryForm::StrOf => Term::StrOf { first },
            UnaryForm::Div => Term::Div { first },
            UnaryForm::NewCell => Term::NewCell { first },
            UnaryForm::Load => Term::Load { first },
            UnaryForm::Hold => Term::Hold { first },
            UnaryForm::Sham => Term::Sham { first },
            UnaryForm::Spawn => Term::Spawn { first },
            UnaryForm::Inl(ty) => Term::Inl { ty, first },
            UnaryForm::Inr(ty) => Term::Inr { ty, first },
            UnaryForm::Held(world) => Term::Held(world, first),
        }
    }

    pub fn binary(form: BinaryForm, first: B, second: B) -> Term<B>
        ensures { parts result ≡ of_taken.Binary form first second }
    {
        match form {
            BinaryForm::Call => Term::Call { first, second },
            BinaryForm::Pair => Term::Pair { first, second },
            BinaryForm::Cons => Term::Cons { first, second },
            BinaryForm::Store => Term::Store { first, second },
            BinaryForm::Do => Term::Do { first, second },
            BinaryForm::Get => Term::Get { first, second },
            BinaryForm::Binary(op) => Term::Binary { op, first, second },
            BinaryForm::Val(var) => Term::Val { var, first, second },
            BinaryForm::Put(var) => Term::Put { var, first, second },
            BinaryForm::Leta(var) => Term::Leta { var, first, second },
            BinaryForm::Lets(var) => Term::Lets { var, first, second },
        }
    }

    pub fn ternary(form: TernaryForm, first: B, second: B, third: B) -> Term<B>
        ensures { parts result ≡ of_taken.Ternary form first second third }
    {
        match form {
            TernaryForm::If => Term::If {
                first,
                second,
                third,
            },
            TernaryForm::CaseSum(var, other) => Term::CaseSum {
                first,
                var,
                second,
                other,
                third,
            },
            TernaryForm::CaseList(var, other) => Term::CaseList {
                first,
                second,
                var,
                other,
                third,
            },
        }
    }
}

impl Node {
    pub fn leaf(form: LeafForm) -> Node
        ensures { result ≡ leaf form }
    {
        Node {
            term: Term::leaf(form),
        }
    }

    pub fn unary(form: UnaryForm, first: NodeBox) -> Node
        ensures { result ≡ unary form first }
    {
        Node {
            term: Term::unary(form, first),
        }
    }

    pub fn binary(form: BinaryForm, first: NodeBox, second: NodeBox) -> Node
        ensures { result ≡ binary form first second }
    {
        Node {
            term: Term::binary(form, first, second),
        }
    }

    pub fn ternary(form: TernaryForm, first: NodeBox, second: NodeBox, third: NodeBox) -> Node
        ensures { result ≡ ternary form first second third }
    {
        Node {
            term: Term::ternary(form, first, second, third),
        }
    }
}
