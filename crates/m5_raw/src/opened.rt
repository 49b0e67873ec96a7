//! A resolved node seen as a form and its parts, which stay where they are.

ghost use Rattle.std.specs.Prelude.{◌≡◌};
ghost use Rattle.m5_terms.specs.Opened.{opened, PartsAreSmaller};
ghost use Rattle.m5_raw.specs.Resolved.{node_count, place_of, resolved_of};

use crate::node::Node;
use m5_terms::opened::Opened;

impl Node {
    /// The form and the parts, without taking memory.
    pub fn open(&self) -> Opened<'_, Node>
        ensures value { resolved_of (place_of self.now) (opened result) ≡ self.now }
        ensures smaller { PartsAreSmaller node_count (node_count self.now) result }
    {
        match self.term.open() {
            Opened::Leaf(form) => Opened::Leaf(form),
            Opened::Unary(form, first) => Opened::Unary(form, first.get()),
            Opened::Binary(form, first, second) => Opened::Binary(form, first.get(), second.get()),
            Opened::Ternary(form, first, second, third) => {
                Opened::Ternary(form, first.get(), second.get(), third.get())
            }
        }
    }
}
