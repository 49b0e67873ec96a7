//! What is known of one site of a program by its types: it steps to typed sites, asks typed asks and is never wrong.
#![tactic(auto)]

pub mod laws;
