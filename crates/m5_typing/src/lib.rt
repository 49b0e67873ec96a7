//! The typing rules, their laws, and programs that are typed.
#![tactic(auto)]

pub mod functions;
pub mod laws;
pub mod program;
pub mod width;
