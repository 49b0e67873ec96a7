//! The run of an object: turns of its sites over the board that they share.
#![tactic(auto)]

pub mod opening;
pub mod rounds;
pub mod run;
pub mod running;
pub mod sites;
pub mod turn;
