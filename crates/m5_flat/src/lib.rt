//! Programs of blocks under labels, closed over their environments, and what a site of them does.
#![tactic(auto)]

pub mod copying;
pub mod label;
pub mod program;
pub mod step;
pub mod table;
