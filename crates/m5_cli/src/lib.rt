//! The jobs of the program: from the words and the bytes read to the bytes written and the status.
#![tactic(auto)]

mod answer;
mod due;
mod expand;
mod first;
mod input;
mod jobs;
mod reference;
mod refusal;
mod replay;
mod status;
mod top;
mod words;

pub use jobs::plain;
pub use status::Status;
pub use top::ml5;
pub use words::{Job, Words, read_words};
