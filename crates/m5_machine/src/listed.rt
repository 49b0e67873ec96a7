//! Lists that stand in an instruction.

ghost use Rattle.std.specs.Prelude.{◌≡◌, ◌<◌, ◌^◌, ℕ, List, length};

use std::marker::Model;

/// The bytes of a text literal.
#[derive(Drop)]
pub struct TextBytes {
    held: Vec<u8>,
}

impl Model for TextBytes {
    ghost use Rattle.std.specs.Prelude.{List, ℕ};

    ghost Value = { List ℕ };

    ghost view = { λ t. t.held.items };
}

impl TextBytes {
    pub fn of(held: Vec<u8>) -> TextBytes
        ensures { result ≡ held.items }
    {
        TextBytes { held }
    }

    pub fn bytes(&self) -> &[u8]
        ensures { result.now ≡ self.now }
    {
        self.held.as_slice()
    }
}

/// The slots of an array's fields, 1 to 65,535 of them.
#[derive(Drop)]
pub struct Operands {
    held: Vec<u16>,
}

impl Model for Operands {
    ghost use Rattle.std.specs.Prelude.{List, ℕ, ◌<◌, ◌^◌, length};

    ghost Value = { List ℕ };

    ghost view = { λ o. o.held.items };

    ghost invariant = { λ o. (0 < length o.held.items) × (length o.held.items < 2 ^ 16) };
}

impl Operands {
    pub fn of(held: Vec<u16>) -> Operands
        requires { (0 < length held.items) × (length held.items < 2 ^ 16) }
        ensures { result ≡ held.items }
    {
        Operands { held }
    }

    pub fn slots(&self) -> &[u16]
        ensures slots { result.now ≡ self.now }
        ensures count { (0 < length result.now) × (length result.now < 2 ^ 16) }
    {
        self.held.as_slice()
    }
}
