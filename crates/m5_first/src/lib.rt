//! The first form of programs, whose `main` says texts one after the other, and their runs.
#![tactic(auto)]

pub mod form;
pub mod walk;
