//! What every other crate speaks of: types, terms, threads, asks and answers, machines, and passes that keep behaviours.
#![tactic(auto)]

pub mod ask;
pub mod binders;
pub mod build;
pub mod closed;
pub mod copy;
pub mod decimal;
pub mod depth;
pub mod form;
pub mod item;
pub mod listed;
pub mod matching;
pub mod node;
pub mod opened;
pub mod per_world;
pub mod primitives;
pub mod queue;
pub mod quoted;
pub mod seal;
pub mod size;
pub mod substitute;
pub mod table;
pub mod taken;
pub mod term;
pub mod text;
pub mod thread;
pub mod types;
pub mod worlds;
