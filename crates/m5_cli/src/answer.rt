//! What is answered to an input.

use crate::status::Status;
use m5_terms::text::Text;

/// A status, and the text that is written with it.
#[derive(Drop)]
pub struct Answer {
    pub status: Status,
    pub text: Text,
}
