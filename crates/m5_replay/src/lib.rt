//! Whether a trace is one of a program's run by a script.
#![tactic(auto)]

pub mod check;
pub mod depth;
pub mod last;
pub mod laws;
pub mod limits;
pub mod line;
pub mod replay;
pub mod running;
pub mod settle;
pub mod verdict;
