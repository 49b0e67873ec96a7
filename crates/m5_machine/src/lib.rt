//! What the two target machines share: instructions, blocks in one flat list, and the run of a
//! thread.
#![tactic(auto)]

mod arrays;
mod block;
pub mod blocks;
mod cells;
pub mod closure;
pub mod decimal;
pub mod link;
pub mod listed;
pub mod made;
mod make;
pub mod next;
mod numbers;
mod operand;
mod primitive;
pub mod run;
pub mod step;
mod texts;
