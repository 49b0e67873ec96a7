//! Reads the tokens of a program into its tree.
#![tactic(auto)]

mod build;
mod choice;
mod code;
mod declare;
mod leaf;
mod machine;
mod make;
pub mod parse;
mod pop;
mod several;
mod stack;
mod table;
mod unary;
mod write;
