//! What a site's machine works on: a region of objects in units, cells, threads, slots and fuel,
//! all in room that is reserved once.
#![tactic(auto)]

pub mod bench;
pub mod cells;
mod layout;
pub mod limits;
mod lookup;
pub mod out;
pub mod queue;
pub mod region;
pub mod slots;
mod units;
pub mod value;
