//! Types are kept along each run of a program, and no site goes wrong.
#![tactic(auto)]

pub mod laws;
