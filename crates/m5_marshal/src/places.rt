//! Where the pairs that are sent stand.

ghost use Rattle.std.specs.Prelude.{◌≡◌, ◌≤◌, ◌<◌, ◌^◌, length, true};
ghost use Rattle.m5_message.specs.Packing.{has, place_in};
ghost use Rattle.m5_marshal.specs.code.Keys.{reached, marks, Rises};

use crate::key::Key;

/// The place of a key among keys that rise.
pub(crate) fn place_of(keys: &[Key], key: Key) -> usize
    requires rising { Rises (marks keys.now) }
    requires there { has (marks keys.now) (reached key) ≡ true }
    ensures { result ≡ place_in (marks keys.now) (reached key) }
{
    let mut low = 0;
    let mut high = keys.len();
    while low < high {
        let middle = low + (high - low) / 2;
        if keys[middle].cmp(&key).is_lt() {
            low = middle + 1;
        } else {
            high = middle;
        }
    }
    low
}
