//! Programs whose names are resolved: each binder has a number of its own, and each node its place.
#![tactic(auto)]

mod build;
pub mod function;
pub mod node;
pub mod opened;
pub mod raw;
