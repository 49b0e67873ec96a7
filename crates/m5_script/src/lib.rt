//! Scripts of sessions, as read, and the trace of a run, as printed.
#![tactic(auto)]

mod fields;
mod form;
pub mod items;
mod line;
mod quoted;
pub mod read;
pub mod reading;
pub mod script;
mod trace;
mod words;

pub use fields::{number, world};
pub use trace::{put_last, put_line, trace_text};
