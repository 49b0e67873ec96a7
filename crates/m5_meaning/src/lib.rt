//! The meaning of a program at one site: threads by substitution, local steps, and what an answer does.
#![tactic(auto)]
