//! Closing: programs of blocks whose closures take, by position, the slots that their blocks use.
#![tactic(auto)]

pub mod laws;
