//! A turn: the value of a hall, for as long as one pass is served.
ghost use Rattle.std.specs.Prelude.{◌≡◌, []};
ghost use Rattle.std.specs.Borrow.{Lends, sem};
ghost use mir.Syntax.{named};
ghost use Rattle.m5_hall.specs.contracts.turn.Turn.{the_row};
ghost use Rattle.m5_hall.specs.Passes.{with_value};

use crate::kept::Kept;
use crate::views::View;
use atomic_table::Seat;
use std::marker::{Model, PhantomData};

/// The value, lent to one pass. It cannot be dropped: give it back by `Hall::leave`.
///
/// Contracts see the value as it is now, its history when the turn began, and the pass as it then was.
pub struct Turn<'a, T: Kept> {
    pub(crate) value: T,
    pub(crate) seat: Seat<Option<T>, View<T::Entry, T::Origin>>,
    pub(crate) splits_left: u32,
    pub(crate) enters: u64,
    pub(crate) count: u64,
    pub(crate) hall: PhantomData<&'a ()>,
}

impl<'a, T: Kept> Model for Turn<'a, T> {
    ghost use Rattle.std.specs.Prelude.{◌≡◌, ◌<◌, ◌%◌, ◌^◌, ℕ, [], ◌∷◌, length, None, IsSome};
    ghost use Rattle.m5_hall.specs.Passes.{Entered, known};
    ghost use Rattle.m5_hall.specs.History.{entry_count};
    ghost use Rattle.m5_hall.specs.Steps.{first_of};
    ghost use Rattle.m5_hall.specs.declared.views.Stage.TheVariants.{Serving};

    ghost Value = { Entered T T.Entry T.Origin };

    ghost view = { λ t. record { value = t.value; history = first_of t.seat.me.0.seen; pass = known t.seat.table_id t.seat.me.0 } };

    ghost invariant = { λ t. (t.seat.me.1 ≡ (0, None) ∷ []) × ((n : ℕ) × (t.seat.me.0.stage ≡ Serving n)) × (t.seat.me.0.seen ≡ first_of t.seat.me.0.seen ∷ []) × (t.splits_left ≡ t.seat.me.0.splits_left) × (t.enters ≡ t.seat.me.0.enters) × (t.count ≡ entry_count t.seat.me.0.own % 2 ^ 64) × (0 < length t.seat.me.0.own) × IsSome t.seat.me.0.origin };
}

impl<'a, T: Kept> Turn<'a, T> {
    /// The value.
    pub fn value(&mut self) -> &mut T
        ensures* writes_back { sem 𝓛 (Lends (the_row (record { mir = named 1; lft = [] }) T.row T.Entry.row T.Origin.row T.Kept) T.row self.entry result (with_value self.old)) }
        ensures value { result.now ≡ self.old.value }
    {
        &mut self.value
    }
}
