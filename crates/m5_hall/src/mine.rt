//! What a hall gives back beside its value: whose entries are whose, and the words where a turn was not left.
use crate::kept::Kept;
use crate::pass::Pass;
use std::marker::Model;
use std::snapshot::Snapshot;

/// The numbers of the passes that were joined into the last one, each with its own entries.
#[derive(Drop)]
pub struct Mine<T: Kept> {
    pub(crate) count: u64,
    pub(crate) pass: Snapshot<Pass<T>>,
}

impl<T: Kept> Model for Mine<T> {
    ghost use Rattle.std.specs.Prelude.{◌≡◌, ℕ, List};
    ghost use Rattle.m5_hall.specs.History.{entry_count};

    ghost Value = { List (ℕ × List T.Entry) };

    ghost view = { λ m. m.pass.value.own };

    ghost invariant = { λ m. m.count ≡ entry_count m.pass.value.own };
}

impl<T: Kept> Mine<T> {
    ghost use Rattle.std.specs.Prelude.{◌≡◌};
    ghost use Rattle.m5_hall.specs.History.{entry_count};

    /// How many entries there are in it.
    pub fn count(&self) -> u64
        ensures { result ≡ entry_count self.now }
    {
        self.count
    }
}

/// The tickets drawn and the tickets served, where they differ: some turn was not left.
#[derive(Clone, Copy, Debug, PartialEq, Eq)]
pub struct Drawn {
    pub drawn: u64,
    pub served: u64,
}
