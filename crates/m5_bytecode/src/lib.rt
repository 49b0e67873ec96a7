//! The code of servers: blocks that have a spelling as bytes.
#![tactic(auto)]

pub mod code;
mod decoding;
mod encoding;
mod input;
mod lengths;
mod lines;
mod putting;
mod steps;
mod words;

pub use decoding::decode;
pub use encoding::encode;
pub use input::CodeEnd;
pub use lines::listing;
