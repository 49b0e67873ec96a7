//! The sites of an object: what each computes, asks, and does with an answer.
#![tactic(auto)]

mod answers;
mod asking;
pub mod check;
mod computing;
pub mod laws;
mod making;
pub mod object;
pub mod site;
pub mod state;
