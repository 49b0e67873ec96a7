//! The board that the sites of all sessions share, and runs of a program by a list of places.
#![tactic(auto)]

pub mod laws;
