//! The productions, each with the kinds of token that pick it.

ghost use Rattle.std.specs.Prelude.{◌≡◌, map};
ghost use Rattle.m5_parse.specs.Rows.{rows};

mod atoms;
mod declarations;
mod exprs;
mod types;

use atoms::*;
use declarations::*;
use exprs::*;
use m5_tree::grammar::{Kind, Phrase, Symbol};
use types::*;

/// A production, and the kinds of the tokens that it begins with.
pub(crate) struct Production {
    pub first: &'static [Kind],
    pub symbols: &'static [Symbol],
}

const OF_WORLD: [Kind; 3] = [Kind::Home, Kind::Server, Kind::Panel];

const OF_TYPE: [Kind; 9] = [
    Kind::Unit,
    Kind::Bool,
    Kind::Int,
    Kind::String,
    Kind::Sham,
    Kind::Home,
    Kind::Server,
    Kind::Panel,
    Kind::Open,
];

const OF_ATOM: [Kind; 13] = [
    Kind::Name,
    Kind::Number,
    Kind::Literal,
    Kind::True,
    Kind::False,
    Kind::Here,
    Kind::Home,
    Kind::Server,
    Kind::Panel,
    Kind::Nil,
    Kind::Open,
    Kind::Let,
    Kind::Case,
];

const OF_HEAD: [Kind; 23] = [
    Kind::Fst,
    Kind::Snd,
    Kind::Bang,
    Kind::Ref,
    Kind::Hold,
    Kind::Sham,
    Kind::Str,
    Kind::Div,
    Kind::Inl,
    Kind::Inr,
    Kind::Name,
    Kind::Number,
    Kind::Literal,
    Kind::True,
    Kind::False,
    Kind::Here,
    Kind::Home,
    Kind::Server,
    Kind::Panel,
    Kind::Nil,
    Kind::Open,
    Kind::Let,
    Kind::Case,
];

const OF_EXPR: [Kind; 28] = [
    Kind::If,
    Kind::Fn,
    Kind::Rec,
    Kind::From,
    Kind::Spawn,
    Kind::Fst,
    Kind::Snd,
    Kind::Bang,
    Kind::Ref,
    Kind::Hold,
    Kind::Sham,
    Kind::Str,
    Kind::Div,
    Kind::Inl,
    Kind::Inr,
    Kind::Name,
    Kind::Number,
    Kind::Literal,
    Kind::True,
    Kind::False,
    Kind::Here,
    Kind::Home,
    Kind::Server,
    Kind::Panel,
    Kind::Nil,
    Kind::Open,
    Kind::Let,
    Kind::Case,
];

/// The productions of a phrase.
#[tactic(auto, unfolding(m5_tree::specs::Productions::alternatives, crate::specs::First::first, crate::specs::First::nullable))]
pub(crate) fn productions(phrase: Phrase) -> &'static [Production]
    ensures { map (λ p. (p.first.now, p.symbols.now)) result.now ≡ rows phrase }
{
    match phrase {
        Phrase::Program => &PROGRAM,
        Phrase::Externs => &EXTERNS,
        Phrase::Functions => &FUNCTIONS,
        Phrase::FunctionName => &FUNCTION_NAME,
        Phrase::World => &WORLD,
        Phrase::Written => &WRITTEN,
        Phrase::WrittenRest => &WRITTEN_REST,
        Phrase::SumType => &SUM_TYPE,
        Phrase::SumTypeRest => &SUM_TYPE_REST,
        Phrase::ProductType => &PRODUCT_TYPE,
        Phrase::ProductTypeRest => &PRODUCT_TYPE_REST,
        Phrase::PostfixType => &POSTFIX_TYPE,
        Phrase::Suffixes => &SUFFIXES,
        Phrase::AtomType => &ATOM_TYPE,
        Phrase::Expr => &EXPR,
        Phrase::Body => &BODY,
        Phrase::StoreRest => &STORE_REST,
        Phrase::Compare => &COMPARE,
        Phrase::CompareRest => &COMPARE_REST,
        Phrase::Cons => &CONS,
        Phrase::ConsRest => &CONS_REST,
        Phrase::Sum => &SUM,
        Phrase::SumRest => &SUM_REST,
        Phrase::Product => &PRODUCT,
        Phrase::ProductRest => &PRODUCT_REST,
        Phrase::Application => &APPLICATION,
        Phrase::Arguments => &ARGUMENTS,
        Phrase::Head => &HEAD,
        Phrase::Atom => &ATOM,
        Phrase::Group => &GROUP,
        Phrase::TupleRest => &TUPLE_REST,
        Phrase::Declarations => &DECLARATIONS,
        Phrase::More => &MORE,
        Phrase::Arms => &ARMS,
    }
}
