//! The run by the meaning itself: how a script opens it, the moments of a site, turns and rounds, and the whole.
#![tactic(auto)]

pub mod limits;
pub mod moment;
pub mod rounds;
pub mod run;
pub mod running;
pub mod turn;
