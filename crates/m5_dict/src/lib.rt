//! The dictionaries of a flat program: the type table, and how each label is entered.
#![tactic(auto)]

pub mod dictionaries;
pub mod memory;
mod number;
mod target;
mod targets;
