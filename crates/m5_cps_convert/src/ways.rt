//! Which way a form of two parts goes.

ghost use Rattle.std.specs.Prelude.{◌≡◌};
ghost use Rattle.m5_cps_convert.specs.code.Ways.{IsWay, extern_of};

use m5_terms::form::BinaryForm;
use m5_terms::node::Node;
use m5_terms::opened::{LeafView, Opened};
use m5_terms::types::Prim;

/// How the code of a form of two parts goes.
#[derive(Clone, Copy)]
pub enum Way {
    /// A primitive is called directly.
    Ask(Prim),
    Pairs,
    Get,
    /// The second part is in tail position, inside what the form binds.
    Let,
    /// Both parts have values, of which one is made.
    Two,
}

fn extern_of(node: &Node) -> Option<Prim>
    ensures { result ≡ extern_of node.now }
{
    match node.open() {
        Opened::Leaf(LeafView::Extern(prim)) => Some(prim),
        _ => None,
    }
}

/// The way of a form over its first part.
pub(crate) fn way_of(form: BinaryForm, first: &Node) -> Way
    ensures { IsWay form first.now result }
{
    match form {
        BinaryForm::Call => match extern_of(first) {
            Some(prim) => Way::Ask(prim),
            None => Way::Two,
        },
        BinaryForm::Pair => Way::Pairs,
        BinaryForm::Get => Way::Get,
        BinaryForm::Do
        | BinaryForm::Val(_)
        | BinaryForm::Put(_)
        | BinaryForm::Leta(_)
        | BinaryForm::Lets(_) => Way::Let,
        BinaryForm::Cons | BinaryForm::Store | BinaryForm::Binary(_) => Way::Two,
    }
}
