//! Sites of typed blocks go on typed and are never wrong, and types of slots are read off the code.
#![tactic(auto)]

pub mod laws;
