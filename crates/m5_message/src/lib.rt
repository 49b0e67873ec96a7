//! A thread as bytes: the message of a closure with its argument, its meaning and its laws.
#![tactic(auto)]

pub mod format;
pub mod law;
