//! The names of worlds, primitives and forms.

use m5_cps::step::Operation;
use m5_terms::form::BinaryForm;
use m5_terms::types::{Op, Prim, World};

pub fn world_name(world: World) -> &'static str {
    match world {
        World::Home => "home",
        World::Server => "server",
        World::Panel => "panel",
        World::Any => "any",
    }
}

pub fn primitive_name(primitive: Prim) -> &'static str {
    match primitive {
        Prim::Say => "say",
        Prim::SetText => "set_text",
        Prim::GetText => "get_text",
        Prim::On => "on",
        Prim::Read => "read",
        Prim::Write => "write",
        Prim::Watch => "watch",
        Prim::Show => "show",
    }
}

pub fn operation_name(operation: Operation) -> &'static str {
    match operation {
        Operation::Fst => "fst",
        Operation::Snd => "snd",
        Operation::StrOf => "str_of",
        Operation::Div => "div",
        Operation::NewCell => "ref",
        Operation::Load => "load",
        Operation::Hold => "hold",
        Operation::Sham => "sham",
        Operation::Inl(_) => "inl",
        Operation::Inr(_) => "inr",
    }
}

pub fn form_name(form: BinaryForm) -> &'static str {
    match form {
        BinaryForm::Pair => "pair",
        BinaryForm::Cons => "cons",
        BinaryForm::Store => "store",
        BinaryForm::Binary(Op::Add) => "+",
        BinaryForm::Binary(Op::Sub) => "-",
        BinaryForm::Binary(Op::Mul) => "*",
        BinaryForm::Binary(Op::Cat) => "^",
        BinaryForm::Binary(Op::EqInt) => "=",
        BinaryForm::Binary(Op::Less) => "<",
        BinaryForm::Binary(Op::EqStr) => "==",
        _ => "of two",
    }
}
