//! The sites of all sessions as a run by substitution holds them: how they open, their names, and what an answer makes of one.
#![tactic(auto)]

pub mod names;
pub mod opening;
pub mod resume;
pub mod sites;
