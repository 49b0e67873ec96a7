//! The formats of a message.

/// The two formats of a message: numbers of a fixed width, or short ones.
#[derive(Clone, Copy, PartialEq, Eq, Debug)]
pub enum Format {
    First,
    Second,
}
