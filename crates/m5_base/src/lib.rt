//! The outside of a run: where bytes come from, where they go, and the gate that a turn passes.
#![tactic(auto)]

pub mod bytes;
pub mod gate;
pub mod sink;
pub mod source;
pub mod standard;
