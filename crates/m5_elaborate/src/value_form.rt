//! The forms that `sham` takes.

ghost use Rattle.std.specs.Prelude.{◌≡◌};
ghost use Rattle.m5_typing.specs.Value.{is_value_form};
ghost use Rattle.m5_elaborate.specs.Erased.{erased};

use m5_raw::node::Node;
use m5_terms::form::BinaryForm;
use m5_terms::opened::{LeafView, Opened, UnaryView};

/// Whether a term is a value with variables in the place of values: a variable, a literal, a function, or a pair, a sum,
/// a list or a `sham` of value forms.
pub(crate) fn is_form(node: &Node) -> bool
    ensures { result ≡ is_value_form (erased node.now) }
{
    match node.open() {
        Opened::Leaf(LeafView::Here) => false,
        Opened::Leaf(_) => true,
        Opened::Unary(UnaryView::Fn(_, _), _) => true,
        Opened::Unary(UnaryView::Rec(_, _, _, _), _) => true,
        Opened::Unary(UnaryView::Inl(_), first) => is_form(first),
        Opened::Unary(UnaryView::Inr(_), first) => is_form(first),
        Opened::Unary(UnaryView::Held(_), first) => is_form(first),
        Opened::Unary(UnaryView::Sham, first) => is_form(first),
        Opened::Unary(_, _) => false,
        Opened::Binary(BinaryForm::Pair, first, second) => is_form(first) && is_form(second),
        Opened::Binary(BinaryForm::Cons, first, second) => is_form(first) && is_form(second),
        Opened::Binary(_, _, _) => false,
        Opened::Ternary(_, _, _, _) => false,
    }
}
