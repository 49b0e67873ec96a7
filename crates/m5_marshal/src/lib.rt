//! A thread as bytes: written out of a region as a message, and read into one.
#![tactic(auto)]

mod add;
mod contents;
mod field;
mod fits;
mod ids;
mod key;
mod marking;
mod number;
mod opened;
mod opening;
mod packing;
mod pass;
mod places;
mod premise;
mod root;
mod spell;
mod unpacking;
mod writing;

pub use packing::pack;
pub use premise::has_bytes;
pub use unpacking::{UnpackEnd, unpack};
