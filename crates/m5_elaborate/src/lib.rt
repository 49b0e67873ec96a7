//! Programs whose types are found: each is typed, or its first fault is told.
#![tactic(auto)]

mod arms;
mod check;
mod declared;
pub mod elaborate;
pub mod end;
mod erase;
pub mod names;
mod pairs;
mod parts;
mod size;
mod synthesis;
mod value_form;
