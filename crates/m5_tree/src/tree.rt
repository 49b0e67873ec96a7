//! The tree of a whole program.

use crate::expr::Expr;
use crate::names::Names;
use crate::type_expr::TypeExpr;
use m5_lex::Place;
use m5_terms::listed::Listed;
use m5_terms::types::World;

/// A primitive that the program declares, with the place of its name.
#[derive(Drop)]
pub struct Extern {
    pub place: Place,
    pub name: usize,
    pub ty: TypeExpr,
    pub world: World,
}

/// A declared function, with the places of its `fun` and of its name. One that is valid everywhere has the world Any.
#[derive(Drop)]
pub struct Function {
    pub place: Place,
    pub name_place: Place,
    pub name: usize,
    pub world: World,
    pub parameter: usize,
    pub ty: TypeExpr,
    pub result: TypeExpr,
    pub body: Expr,
}

/// What stands before `main`, in the order of the text.
#[derive(Drop)]
pub struct Declarations {
    pub externs: Listed<Extern>,
    pub functions: Listed<Function>,
}

/// A program, with the place of its `main`. Names are numbers.
#[derive(Drop)]
pub struct Program {
    pub declarations: Declarations,
    pub main: Place,
    pub body: Expr,
}

/// A program and its names, each at the place of its number.
#[derive(Drop)]
pub struct Tree {
    pub names: Names,
    pub program: Program,
}
