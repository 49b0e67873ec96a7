//! Blocks of examples that are run by their meaning: what they ask, and what they take.
#![tactic(auto)]

pub mod laws;
