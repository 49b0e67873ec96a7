//! One site of the meaning as code: its local steps, its asks, and what each answer makes of it.
#![tactic(auto)]

mod evaluate;
pub mod item;
pub mod laws;
pub mod measured;
pub mod next;
mod operate;
mod outcome;
mod parts;
mod primitives;
mod reduce;
mod reduced;
pub mod resume;
mod returning;
pub mod site;
mod size;
pub mod thread;
