//! Hoisting: closed programs whose labels have two bytes.
#![tactic(auto)]

pub mod hoist;
pub mod laws;
