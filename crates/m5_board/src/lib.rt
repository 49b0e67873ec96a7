//! The board: the key store, the watches and what each session has, over any kind of item that
//! goes along its links, and its answers.
#![tactic(auto)]

pub mod answer;
pub mod board;
pub mod desk;
mod desks;
pub mod opening;
mod take;
mod tell;
