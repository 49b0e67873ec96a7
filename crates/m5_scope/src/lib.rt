//! The names of a program resolved: each binder has a number of its own.
#![tactic(auto)]

mod declare;
pub mod end;
mod expression;
mod forms;
pub mod laws;
pub mod meaning;
mod places;
pub mod resolve;
mod tuple;
mod written;
