//! Nodes made of a place, a form and its parts.

ghost use Rattle.std.specs.Prelude.{◌≡◌};
ghost use Rattle.m5_raw.specs.Resolved.{leaf, unary, binary, ternary};

use crate::node::{Node, NodeBox};
use m5_lex::Place;
use m5_terms::form::{BinaryForm, LeafForm, TernaryForm, UnaryForm};
use m5_terms::term::Term;

impl Node {
    pub fn leaf(place: Place, form: LeafForm) -> Node
        ensures { result ≡ leaf place form }
    {
        Node {
            place,
            term: Term::leaf(form),
        }
    }

    pub fn unary(place: Place, form: UnaryForm, first: NodeBox) -> Node
        ensures { result ≡ unary place form first }
    {
        Node {
            place,
            term: Term::unary(form, first),
        }
    }

    pub fn binary(place: Place, form: BinaryForm, first: NodeBox, second: NodeBox) -> Node
        ensures { result ≡ binary place form first second }
    {
        Node {
            place,
            term: Term::binary(form, first, second),
        }
    }

    pub fn ternary(
        place: Place,
        form: TernaryForm,
        first: NodeBox,
        second: NodeBox,
        third: NodeBox,
    ) -> Node
        ensures { result ≡ ternary place form first second third }
    {
        Node {
            place,
            term: Term::ternary(form, first, second, third),
        }
    }
}
