//! What happens at an element of a page, and who is told.

use m5_terms::text::Text;

/// A handler of an element, by its number at the session's home.
#[derive(Drop)]
pub struct Handler {
    pub element: Text,
    pub number: u32,
}

/// A page event that is left.
#[derive(Drop)]
pub struct Event {
    pub element: Text,
    pub text: Text,
}
