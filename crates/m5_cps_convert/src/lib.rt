//! Continuation-passing style: the blocks of a program, what their states are read back to, and that they go on as it does.
#![tactic(auto)]

mod around;
mod aways;
mod choices;
mod closing;
mod functions;
mod gets;
pub mod laws;
mod leaves;
mod lets;
mod names;
mod node;
mod operations;
mod pairs;
mod part_types;
pub mod to_cps;
mod two_parts;
mod types;
mod walk;
mod ways;
mod writing;
