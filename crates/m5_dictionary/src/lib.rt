//! The dictionaries of a program: what type ids stand for, and how each label is entered.
#![tactic(auto)]

pub mod check;
pub mod dicts;
pub mod label;
pub mod line;
