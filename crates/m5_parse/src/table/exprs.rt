//! The productions of expressions down to applications.

use crate::table::{OF_ATOM, OF_EXPR, OF_HEAD, Production};
use m5_terms::types::Op;
use m5_tree::form::BinaryForm;
use m5_tree::grammar::Action::{Enter, Leave, Make, Pass};
use m5_tree::grammar::Form::Build;
use m5_tree::grammar::Symbol::{Act, Nt, Tok};
use m5_tree::grammar::{ExprForm, Kind, Phrase, Prefix};

pub(super) const EXPR: [Production; 1] = [Production {
    first: &OF_EXPR,
    symbols: &[Act(Enter), Nt(Phrase::Body), Act(Leave)],
}];

pub(super) const BODY: [Production; 6] = [
    Production {
        first: &[Kind::If],
        symbols: &[
            Tok(true, Kind::If),
            Nt(Phrase::Expr),
            Tok(false, Kind::Then),
            Nt(Phrase::Expr),
            Tok(false, Kind::Else),
            Nt(Phrase::Expr),
            Act(Make(Build(ExprForm::OfIf))),
        ],
    },
    Production {
        first: &[Kind::Fn],
        symbols: &[
            Tok(true, Kind::Fn),
            Tok(false, Kind::Open),
            Tok(true, Kind::Name),
            Tok(false, Kind::Colon),
            Nt(Phrase::Written),
            Tok(false, Kind::Close),
            Tok(false, Kind::Arrow),
            Nt(Phrase::Expr),
            Act(Make(Build(ExprForm::OfFn))),
        ],
    },
    Production {
        first: &[Kind::Rec],
        symbols: &[
            Tok(true, Kind::Rec),
            Tok(true, Kind::Name),
            Tok(false, Kind::Open),
            Tok(true, Kind::Name),
            Tok(false, Kind::Colon),
            Nt(Phrase::Written),
            Tok(false, Kind::Close),
            Tok(false, Kind::Colon),
            Nt(Phrase::Written),
            Tok(false, Kind::Arrow),
            Nt(Phrase::Expr),
            Act(Make(Build(ExprForm::OfRec))),
        ],
    },
    Production {
        first: &[Kind::From],
        symbols: &[
            Tok(true, Kind::From),
            Nt(Phrase::Atom),
            Tok(false, Kind::Get),
            Nt(Phrase::Expr),
            Act(Make(Build(ExprForm::OfLeading(BinaryForm::Get)))),
        ],
    },
    Production {
        first: &[Kind::Spawn],
        symbols: &[
            Tok(true, Kind::Spawn),
            Nt(Phrase::Expr),
            Act(Make(Build(ExprForm::OfPrefix(Prefix::Spawn)))),
        ],
    },
    Production {
        first: &OF_HEAD,
        symbols: &[Nt(Phrase::Compare), Nt(Phrase::StoreRest)],
    },
];

pub(super) const STORE_REST: [Production; 2] = [
    Production {
        first: &[Kind::Assign],
        symbols: &[
            Tok(false, Kind::Assign),
            Act(Pass),
            Nt(Phrase::Compare),
            Act(Make(Build(ExprForm::OfInfix(BinaryForm::Store)))),
        ],
    },
    Production {
        first: &[],
        symbols: &[],
    },
];

pub(super) const COMPARE: [Production; 1] = [Production {
    first: &OF_HEAD,
    symbols: &[Nt(Phrase::Cons), Nt(Phrase::CompareRest)],
}];

pub(super) const COMPARE_REST: [Production; 4] = [
    Production {
        first: &[Kind::Equals],
        symbols: &[
            Tok(false, Kind::Equals),
            Act(Pass),
            Nt(Phrase::Cons),
            Act(Make(Build(ExprForm::OfInfix(BinaryForm::Binary(Op::EqInt))))),
        ],
    },
    Production {
        first: &[Kind::Less],
        symbols: &[
            Tok(false, Kind::Less),
            Act(Pass),
            Nt(Phrase::Cons),
            Act(Make(Build(ExprForm::OfInfix(BinaryForm::Binary(Op::Less))))),
        ],
    },
    Production {
        first: &[Kind::SameText],
        symbols: &[
            Tok(false, Kind::SameText),
            Act(Pass),
            Nt(Phrase::Cons),
            Act(Make(Build(ExprForm::OfInfix(BinaryForm::Binary(Op::EqStr))))),
        ],
    },
    Production {
        first: &[],
        symbols: &[],
    },
];

pub(super) const CONS: [Production; 1] = [Production {
    first: &OF_HEAD,
    symbols: &[Nt(Phrase::Sum), Nt(Phrase::ConsRest)],
}];

pub(super) const CONS_REST: [Production; 2] = [
    Production {
        first: &[Kind::Cons],
        symbols: &[
            Tok(false, Kind::Cons),
            Act(Pass),
            Nt(Phrase::Cons),
            Act(Make(Build(ExprForm::OfInfix(BinaryForm::Cons)))),
        ],
    },
    Production {
        first: &[],
        symbols: &[],
    },
];

pub(super) const SUM: [Production; 1] = [Production {
    first: &OF_HEAD,
    symbols: &[Nt(Phrase::Product), Nt(Phrase::SumRest)],
}];

pub(super) const SUM_REST: [Production; 4] = [
    Production {
        first: &[Kind::Plus],
        symbols: &[
            Tok(false, Kind::Plus),
            Act(Pass),
            Nt(Phrase::Product),
            Act(Make(Build(ExprForm::OfInfix(BinaryForm::Binary(Op::Add))))),
            Nt(Phrase::SumRest),
        ],
    },
    Production {
        first: &[Kind::Minus],
        symbols: &[
            Tok(false, Kind::Minus),
            Act(Pass),
            Nt(Phrase::Product),
            Act(Make(Build(ExprForm::OfInfix(BinaryForm::Binary(Op::Sub))))),
            Nt(Phrase::SumRest),
        ],
    },
    Production {
        first: &[Kind::Caret],
        symbols: &[
            Tok(false, Kind::Caret),
            Act(Pass),
            Nt(Phrase::Product),
            Act(Make(Build(ExprForm::OfInfix(BinaryForm::Binary(Op::Cat))))),
            Nt(Phrase::SumRest),
        ],
    },
    Production {
        first: &[],
        symbols: &[],
    },
];

pub(super) const PRODUCT: [Production; 1] = [Production {
    first: &OF_HEAD,
    symbols: &[Nt(Phrase::Application), Nt(Phrase::ProductRest)],
}];

pub(super) const PRODUCT_REST: [Production; 2] = [
    Production {
        first: &[Kind::Star],
        symbols: &[
            Tok(false, Kind::Star),
            Act(Pass),
            Nt(Phrase::Application),
            Act(Make(Build(ExprForm::OfInfix(BinaryForm::Binary(Op::Mul))))),
            Nt(Phrase::ProductRest),
        ],
    },
    Production {
        first: &[],
        symbols: &[],
    },
];

pub(super) const APPLICATION: [Production; 1] = [Production {
    first: &OF_HEAD,
    symbols: &[Nt(Phrase::Head), Nt(Phrase::Arguments)],
}];

pub(super) const ARGUMENTS: [Production; 2] = [
    Production {
        first: &OF_ATOM,
        symbols: &[
            Nt(Phrase::Atom),
            Act(Make(Build(ExprForm::OfInfix(BinaryForm::Call)))),
            Act(Pass),
            Nt(Phrase::Arguments),
        ],
    },
    Production {
        first: &[],
        symbols: &[],
    },
];
