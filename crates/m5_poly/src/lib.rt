//! Declarations with type variables: the tokens of a text with each instance of such a declaration written out.
#![tactic(auto)]

mod codes;
pub mod end;
pub mod expand;
mod instances;
mod item;
mod name;
mod names;
mod role;
mod sections;
mod survey;
mod types;
mod uses;
mod walk;
mod write;
