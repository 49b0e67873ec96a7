//! What is brought to a label has the types that the dictionaries say, by their ids.
#![tactic(auto)]

pub mod laws;
