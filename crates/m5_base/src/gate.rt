//! The gate that a site's turn passes, which a test can hold shut to see workers overlap.

/// Is told of each turn of a site in a phase: `pass` before it and `left` after it. Both may wait as they like
/// within what their type can do, and neither changes a run.
pub trait Gate {
    fn pass(&self, site: u32);

    fn left(&self, site: u32);
}

/// The gate that does nothing.
#[derive(Clone, Copy, Debug)]
pub struct OpenGate;

impl Gate for OpenGate {
    fn pass(&self, _site: u32) {}

    fn left(&self, _site: u32) {}
}
