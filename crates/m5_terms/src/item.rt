//! What may go along a link.

ghost use Rattle.std.specs.Prelude.{◌≡◌, ℕ, List, Bool};

use crate::text::Text;

/// What may go along a link: raw bytes among them, and whether a session's site sealed it.
pub trait Item: Drop {
    // raw bytes as an item
    ghost raw: { List ℕ → Self };

    // whether the item has the session's seal
    ghost has_seal: { ℕ → Self → Bool };

    fn of_raw(bytes: Text) -> Self
        ensures { result ≡ raw bytes };

    fn is_sealed(&self, session: u32) -> bool
        ensures { result ≡ has_seal session self.now };
}
