//! The productions of programs and declarations.

use crate::table::Production;
use m5_terms::types::World;
use m5_tree::form::BinaryForm;
use m5_tree::grammar::Action::{Make, Pass};
use m5_tree::grammar::Form::{Build, Declare};
use m5_tree::grammar::Symbol::{Act, Nt, Tok};
use m5_tree::grammar::{Binding, DeclarationForm, ExprForm, Kind, Phrase};

pub(super) const PROGRAM: [Production; 1] = [Production {
    first: &[Kind::Extern, Kind::Fun, Kind::Main],
    symbols: &[
        Act(Make(Declare(DeclarationForm::Begin))),
        Nt(Phrase::Externs),
        Nt(Phrase::Functions),
        Tok(true, Kind::Main),
        Tok(false, Kind::Equals),
        Nt(Phrase::Expr),
        Act(Make(Declare(DeclarationForm::OfProgram))),
    ],
}];

pub(super) const EXTERNS: [Production; 2] = [
    Production {
        first: &[Kind::Extern],
        symbols: &[
            Tok(false, Kind::Extern),
            Tok(false, Kind::Val),
            Tok(true, Kind::Name),
            Tok(false, Kind::Colon),
            Nt(Phrase::Written),
            Tok(false, Kind::AtSign),
            Nt(Phrase::World),
            Act(Make(Declare(DeclarationForm::OfExtern))),
            Nt(Phrase::Externs),
        ],
    },
    Production {
        first: &[],
        symbols: &[],
    },
];

pub(super) const FUNCTIONS: [Production; 2] = [
    Production {
        first: &[Kind::Fun],
        symbols: &[
            Tok(true, Kind::Fun),
            Nt(Phrase::FunctionName),
            Tok(false, Kind::Open),
            Tok(true, Kind::Name),
            Tok(false, Kind::Colon),
            Nt(Phrase::Written),
            Tok(false, Kind::Close),
            Tok(false, Kind::Colon),
            Nt(Phrase::Written),
            Tok(false, Kind::Equals),
            Nt(Phrase::Expr),
            Act(Make(Declare(DeclarationForm::OfFunction))),
            Nt(Phrase::Functions),
        ],
    },
    Production {
        first: &[],
        symbols: &[],
    },
];

pub(super) const FUNCTION_NAME: [Production; 2] = [
    Production {
        first: &[Kind::Tilde],
        symbols: &[
            Tok(false, Kind::Tilde),
            Tok(true, Kind::Name),
            Act(Make(Declare(DeclarationForm::Anywhere))),
        ],
    },
    Production {
        first: &[Kind::Name],
        symbols: &[
            Tok(true, Kind::Name),
            Tok(false, Kind::AtSign),
            Nt(Phrase::World),
        ],
    },
];

pub(super) const WORLD: [Production; 3] = [
    Production {
        first: &[Kind::Home],
        symbols: &[
            Tok(true, Kind::Home),
            Act(Make(Declare(DeclarationForm::OfWorld(World::Home)))),
        ],
    },
    Production {
        first: &[Kind::Server],
        symbols: &[
            Tok(true, Kind::Server),
            Act(Make(Declare(DeclarationForm::OfWorld(World::Server)))),
        ],
    },
    Production {
        first: &[Kind::Panel],
        symbols: &[
            Tok(true, Kind::Panel),
            Act(Make(Declare(DeclarationForm::OfWorld(World::Panel)))),
        ],
    },
];

pub(super) const DECLARATIONS: [Production; 5] = [
    Production {
        first: &[Kind::Val],
        symbols: &[
            Tok(true, Kind::Val),
            Tok(true, Kind::Name),
            Tok(false, Kind::Equals),
            Nt(Phrase::Expr),
            Act(Pass),
            Nt(Phrase::More),
            Act(Make(Build(ExprForm::OfBinding(Binding::Val)))),
        ],
    },
    Production {
        first: &[Kind::Do],
        symbols: &[
            Tok(true, Kind::Do),
            Nt(Phrase::Expr),
            Act(Pass),
            Nt(Phrase::More),
            Act(Make(Build(ExprForm::OfLeading(BinaryForm::Do)))),
        ],
    },
    Production {
        first: &[Kind::Put],
        symbols: &[
            Tok(true, Kind::Put),
            Tok(false, Kind::Tilde),
            Tok(true, Kind::Name),
            Tok(false, Kind::Equals),
            Nt(Phrase::Expr),
            Act(Pass),
            Nt(Phrase::More),
            Act(Make(Build(ExprForm::OfBinding(Binding::Put)))),
        ],
    },
    Production {
        first: &[Kind::Leta],
        symbols: &[
            Tok(true, Kind::Leta),
            Tok(true, Kind::Name),
            Tok(false, Kind::Equals),
            Nt(Phrase::Expr),
            Act(Pass),
            Nt(Phrase::More),
            Act(Make(Build(ExprForm::OfBinding(Binding::Leta)))),
        ],
    },
    Production {
        first: &[Kind::Lets],
        symbols: &[
            Tok(true, Kind::Lets),
            Tok(false, Kind::Tilde),
            Tok(true, Kind::Name),
            Tok(false, Kind::Equals),
            Nt(Phrase::Expr),
            Act(Pass),
            Nt(Phrase::More),
            Act(Make(Build(ExprForm::OfBinding(Binding::Lets)))),
        ],
    },
];

pub(super) const MORE: [Production; 2] = [
    Production {
        first: &[Kind::In],
        symbols: &[Tok(false, Kind::In), Nt(Phrase::Expr)],
    },
    Production {
        first: &[Kind::Val, Kind::Do, Kind::Put, Kind::Leta, Kind::Lets],
        symbols: &[Nt(Phrase::Declarations)],
    },
];
