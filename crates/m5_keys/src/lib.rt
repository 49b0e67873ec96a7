//! The key store: a text for each key that has one, and the watches of keys.
#![tactic(auto)]

pub mod keys;
pub mod watch;
