//! Sites of typed blocks under labels go on typed and are never wrong, and what is brought to a label has the label's types.
#![tactic(auto)]

pub mod laws;
