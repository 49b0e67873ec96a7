//! What the sites of an object share: one board whose messages are bytes, and the history of its answers.
#![tactic(auto)]

pub mod bytes;
pub mod shared;
