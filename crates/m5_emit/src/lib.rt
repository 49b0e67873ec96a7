//! Emission: what the blocks of a slice become in the machines' instructions, and that the machines follow it.
#![tactic(auto)]

pub mod laws;
