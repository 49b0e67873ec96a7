//! A ticket lock whose history is known: which entries the kept value's history has, and which pass made each.
#![tactic(auto)]

mod bells;
mod hall;
mod kept;
mod mine;
mod pass;
mod queue;
mod turn;
mod views;

pub use hall::Hall;
pub use kept::Kept;
pub use mine::{Drawn, Mine};
pub use pass::Pass;
pub use turn::Turn;
