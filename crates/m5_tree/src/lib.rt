//! The surface tree of a program, and the grammar that relates token lists to trees.
#![tactic(auto)]

pub mod expr;
pub mod form;
pub mod grammar;
pub mod names;
pub mod tree;
pub mod type_expr;
pub mod value;
