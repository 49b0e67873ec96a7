//! The productions of what an application is made of.

use crate::table::{OF_ATOM, OF_EXPR, Production};
use m5_tree::grammar::Action::Make;
use m5_tree::grammar::Form::Build;
use m5_tree::grammar::Symbol::{Act, Nt, Tok};
use m5_tree::grammar::{ExprForm, Kind, Phrase, Plain, Prefix};

pub(super) const HEAD: [Production; 11] = [
    Production {
        first: &[Kind::Fst],
        symbols: &[
            Tok(true, Kind::Fst),
            Nt(Phrase::Atom),
            Act(Make(Build(ExprForm::OfPrefix(Prefix::Fst)))),
        ],
    },
    Production {
        first: &[Kind::Snd],
        symbols: &[
            Tok(true, Kind::Snd),
            Nt(Phrase::Atom),
            Act(Make(Build(ExprForm::OfPrefix(Prefix::Snd)))),
        ],
    },
    Production {
        first: &[Kind::Bang],
        symbols: &[
            Tok(true, Kind::Bang),
            Nt(Phrase::Atom),
            Act(Make(Build(ExprForm::OfPrefix(Prefix::Load)))),
        ],
    },
    Production {
        first: &[Kind::Ref],
        symbols: &[
            Tok(true, Kind::Ref),
            Nt(Phrase::Atom),
            Act(Make(Build(ExprForm::OfPrefix(Prefix::NewCell)))),
        ],
    },
    Production {
        first: &[Kind::Hold],
        symbols: &[
            Tok(true, Kind::Hold),
            Nt(Phrase::Atom),
            Act(Make(Build(ExprForm::OfPrefix(Prefix::Hold)))),
        ],
    },
    Production {
        first: &[Kind::Sham],
        symbols: &[
            Tok(true, Kind::Sham),
            Nt(Phrase::Atom),
            Act(Make(Build(ExprForm::OfPrefix(Prefix::Sham)))),
        ],
    },
    Production {
        first: &[Kind::Str],
        symbols: &[
            Tok(true, Kind::Str),
            Nt(Phrase::Atom),
            Act(Make(Build(ExprForm::OfPrefix(Prefix::StrOf)))),
        ],
    },
    Production {
        first: &[Kind::Div],
        symbols: &[
            Tok(true, Kind::Div),
            Nt(Phrase::Atom),
            Act(Make(Build(ExprForm::OfPrefix(Prefix::Div)))),
        ],
    },
    Production {
        first: &[Kind::Inl],
        symbols: &[
            Tok(true, Kind::Inl),
            Tok(false, Kind::OpenSquare),
            Nt(Phrase::Written),
            Tok(false, Kind::CloseSquare),
            Nt(Phrase::Atom),
            Act(Make(Build(ExprForm::OfInl))),
        ],
    },
    Production {
        first: &[Kind::Inr],
        symbols: &[
            Tok(true, Kind::Inr),
            Tok(false, Kind::OpenSquare),
            Nt(Phrase::Written),
            Tok(false, Kind::CloseSquare),
            Nt(Phrase::Atom),
            Act(Make(Build(ExprForm::OfInr))),
        ],
    },
    Production {
        first: &OF_ATOM,
        symbols: &[Nt(Phrase::Atom)],
    },
];

pub(super) const ATOM: [Production; 13] = [
    Production {
        first: &[Kind::Name],
        symbols: &[Tok(true, Kind::Name), Act(Make(Build(ExprForm::OfName)))],
    },
    Production {
        first: &[Kind::Number],
        symbols: &[
            Tok(true, Kind::Number),
            Act(Make(Build(ExprForm::OfNumber))),
        ],
    },
    Production {
        first: &[Kind::Literal],
        symbols: &[
            Tok(true, Kind::Literal),
            Act(Make(Build(ExprForm::OfLiteral))),
        ],
    },
    Production {
        first: &[Kind::True],
        symbols: &[
            Tok(true, Kind::True),
            Act(Make(Build(ExprForm::OfPlain(Plain::True)))),
        ],
    },
    Production {
        first: &[Kind::False],
        symbols: &[
            Tok(true, Kind::False),
            Act(Make(Build(ExprForm::OfPlain(Plain::False)))),
        ],
    },
    Production {
        first: &[Kind::Here],
        symbols: &[
            Tok(true, Kind::Here),
            Act(Make(Build(ExprForm::OfPlain(Plain::Here)))),
        ],
    },
    Production {
        first: &[Kind::Home],
        symbols: &[
            Tok(true, Kind::Home),
            Act(Make(Build(ExprForm::OfPlain(Plain::Home)))),
        ],
    },
    Production {
        first: &[Kind::Server],
        symbols: &[
            Tok(true, Kind::Server),
            Act(Make(Build(ExprForm::OfPlain(Plain::Server)))),
        ],
    },
    Production {
        first: &[Kind::Panel],
        symbols: &[
            Tok(true, Kind::Panel),
            Act(Make(Build(ExprForm::OfPlain(Plain::Panel)))),
        ],
    },
    Production {
        first: &[Kind::Nil],
        symbols: &[
            Tok(true, Kind::Nil),
            Tok(false, Kind::OpenSquare),
            Nt(Phrase::Written),
            Tok(false, Kind::CloseSquare),
            Act(Make(Build(ExprForm::OfNil))),
        ],
    },
    Production {
        first: &[Kind::Open],
        symbols: &[
            Tok(true, Kind::Open),
            Act(Make(Build(ExprForm::NoParts))),
            Nt(Phrase::Group),
            Act(Make(Build(ExprForm::OfTuple))),
        ],
    },
    Production {
        first: &[Kind::Let],
        symbols: &[
            Tok(true, Kind::Let),
            Nt(Phrase::Declarations),
            Tok(false, Kind::End),
            Act(Make(Build(ExprForm::Group))),
        ],
    },
    Production {
        first: &[Kind::Case],
        symbols: &[
            Tok(true, Kind::Case),
            Nt(Phrase::Expr),
            Tok(false, Kind::Of),
            Nt(Phrase::Arms),
            Tok(false, Kind::End),
        ],
    },
];

pub(super) const GROUP: [Production; 2] = [
    Production {
        first: &[Kind::Close],
        symbols: &[Tok(false, Kind::Close)],
    },
    Production {
        first: &OF_EXPR,
        symbols: &[
            Nt(Phrase::Expr),
            Act(Make(Build(ExprForm::AddPart))),
            Nt(Phrase::TupleRest),
        ],
    },
];

pub(super) const TUPLE_REST: [Production; 2] = [
    Production {
        first: &[Kind::Comma],
        symbols: &[
            Tok(false, Kind::Comma),
            Nt(Phrase::Expr),
            Act(Make(Build(ExprForm::AddPart))),
            Nt(Phrase::TupleRest),
        ],
    },
    Production {
        first: &[Kind::Close],
        symbols: &[Tok(false, Kind::Close)],
    },
];

pub(super) const ARMS: [Production; 2] = [
    Production {
        first: &[Kind::Inl],
        symbols: &[
            Tok(false, Kind::Inl),
            Tok(true, Kind::Name),
            Tok(false, Kind::Arrow),
            Nt(Phrase::Expr),
            Tok(false, Kind::Bar),
            Tok(false, Kind::Inr),
            Tok(true, Kind::Name),
            Tok(false, Kind::Arrow),
            Nt(Phrase::Expr),
            Act(Make(Build(ExprForm::OfCaseSum))),
        ],
    },
    Production {
        first: &[Kind::Nil],
        symbols: &[
            Tok(false, Kind::Nil),
            Tok(false, Kind::Arrow),
            Nt(Phrase::Expr),
            Tok(false, Kind::Bar),
            Tok(true, Kind::Name),
            Tok(false, Kind::Cons),
            Tok(true, Kind::Name),
            Tok(false, Kind::Arrow),
            Nt(Phrase::Expr),
            Act(Make(Build(ExprForm::OfCaseList))),
        ],
    },
];
