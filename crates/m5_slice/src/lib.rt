//! Slices: of a flat program, the blocks that stand at each world.
#![tactic(auto)]

pub mod laws;
pub mod slices;
mod writing;
