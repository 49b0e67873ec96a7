//! A session's page: the texts of its elements and their handlers.
#![tactic(auto)]

pub mod page;
pub mod row;
