//! A program text read whole: its tree, its resolved and its typed program, or how it is refused.
#![tactic(auto)]

pub mod program;
pub mod refusal;
