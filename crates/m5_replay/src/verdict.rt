//! The verdict on a trace.

/// All lines fit, the line that is the first not to fit, or the line whose settling needs more than
/// the budget. Lines are counted from 1; where the last line is missing, that is the line after
/// those that are there.
#[derive(Clone, Copy, Debug, PartialEq, Eq)]
pub enum Verdict {
    Yes,
    No(u32),
    Spent(u32),
}
