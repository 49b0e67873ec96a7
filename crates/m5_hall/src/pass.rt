//! A pass: the right to enter a hall, with what its holder has seen and made there.
ghost use Rattle.std.specs.Prelude.{◌≡◌};

use crate::kept::Kept;
use crate::views::View;
use atomic_table::Seat;
use std::marker::Model;

/// Contracts see its hall, the origin of the hall's value, the histories that it has seen, and its own entries.
#[derive(Drop)]
pub struct Pass<T: Kept> {
    pub(crate) seat: Seat<Option<T>, View<T::Entry, T::Origin>>,
    pub(crate) splits_left: u32,
    pub(crate) enters: u64,
    // How many entries it has, modulo 2^64. No hall has as many.
    pub(crate) count: u64,
}

impl<T: Kept> Model for Pass<T> {
    ghost use Rattle.std.specs.Prelude.{◌≡◌, ◌<◌, ◌%◌, ◌^◌, [], length, IsSome};
    ghost use Rattle.m5_hall.specs.Passes.{Known, known};
    ghost use Rattle.m5_hall.specs.History.{entry_count};
    ghost use Rattle.m5_hall.specs.declared.views.Stage.TheVariants.{Resting};

    ghost Value = { Known T.Entry T.Origin };

    ghost view = { λ p. known p.seat.table_id p.seat.me.0 };

    ghost invariant = { λ p. (p.seat.me.1 ≡ []) × (p.seat.me.0.stage ≡ Resting) × (p.splits_left ≡ p.seat.me.0.splits_left) × (p.enters ≡ p.seat.me.0.enters) × (p.count ≡ entry_count p.seat.me.0.own % 2 ^ 64) × (0 < length p.seat.me.0.own) × IsSome p.seat.me.0.origin };
}

impl<T: Kept> Pass<T> {
    /// How many passes may still be split off.
    pub fn splits_left(&self) -> u32
        ensures { result ≡ self.now.splits_left }
    {
        self.splits_left
    }

    /// How often it has entered.
    pub fn enters(&self) -> u64
        ensures { result ≡ self.now.enters }
    {
        self.enters
    }
}
