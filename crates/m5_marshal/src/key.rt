//! An object of a region with a type id at which it is reached.

/// By the object's number, and then by the type id.
#[derive(Clone, Copy, PartialEq, Eq, PartialOrd, Ord, Debug)]
pub struct Key {
    pub at: u32,
    pub id: u32,
}
