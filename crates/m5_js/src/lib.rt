//! The code of homes and panels: blocks that have a spelling as JavaScript.
#![tactic(auto)]

mod guess;
mod input;
pub mod js;
mod printing;
mod reading;
mod words;

pub use printing::print;
pub use reading::{JsEnd, read};
