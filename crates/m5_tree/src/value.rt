//! What a phrase that was read stands for.

use crate::expr::{Expr, Parts};
use crate::tree::{Declarations, Program};
use crate::type_expr::TypeExpr;
use m5_lex::Place;
use m5_terms::text::Text;
use m5_terms::types::World;

/// The value of a token or phrase, with the place of its first token: a type or an expression in brackets has that of
/// the bracket, its node keeps its own.
#[derive(Drop)]
pub enum Value {
    Mark(Place),
    Name(Place, usize),
    Number(Place, u64),
    Literal(Place, Text),
    World(Place, World),
    Written(Place, TypeExpr),
    Expr(Place, Expr),
    Parts(Parts),
    Declared(Declarations),
    Whole(Program),
}
