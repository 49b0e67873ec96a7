//! The hall: the two words, the slot with the kept value, and the calls of its passes.
ghost use Rattle.std.specs.Prelude.{◌≡◌, ◌<◌, ◌^◌, [], ◌∷◌, ◌++◌, true, false, length, Some, All, IfOk, IfErr};
ghost use Rattle.m5_hall.specs.History.{entry_count, HasOwn};
ghost use mathlib.Core.List.{IsPrefix};
ghost use Rattle.m5_hall.specs.Steps.{with_more};
ghost use Rattle.m5_hall.specs.Passes.{first_pass, split_from, split_off, entering, joined_with, IsWhole};

use crate::bells::Bells;
use crate::kept::Kept;
use crate::mine::{Drawn, Mine};
use crate::pass::Pass;
use crate::turn::Turn;
use crate::views::{Law, Parting, View};
use atomic_table::Table;
use std::alloc::{AllocError, Global};
use std::marker::{Model, PhantomData};
use std::snapshot::Snapshot;
use std::sync::Wait;

/// A ticket lock round one value. Contracts see which hall it is.
///
/// The first word is the next ticket to draw, the second the ticket that is served, and the slot has the value.
#[derive(Drop)]
pub struct Hall<T: Kept> {
    pub(crate) table: Table<Option<T>, View<T::Entry, T::Origin>, Snapshot<T>, Law<T>, Global>,
    pub(crate) bells: Bells,
}

impl<T: Kept> Model for Hall<T> {
    ghost use Rattle.std.specs.Prelude.{◌≡◌};
    ghost use Rattle.atomic_table.specs.Seated.{TableId, table_id_coded};

    ghost Value = { TableId };

    ghost coded = { table_id_coded };

    ghost view = { λ h. h.table.shared.table_id };

    ghost invariant = { λ h. (h.table.shared.table_id.words ≡ 2) × (h.table.shared.table_id.slots ≡ 1) };
}

impl<T: Kept> Hall<T> {
    /// A hall for a value with an empty history, and its first pass.
    pub fn make(alloc: Global, value: T) -> Result<(Hall<T>, Pass<T>), AllocError>
        requires { T.history value ≡ [] }
        ensures { IfOk result (λ r. r.1 ≡ first_pass r.0 (T.origin value)) }
    {
        let bells = Bells::hang(alloc)?;
        let about = Snapshot::of(&value);
        let mut slots = Vec::with_capacity(alloc, 1)?;
        slots.push(Some(value))?;
        let Ok((table, seat)) = Table::new(alloc, &[0, 0], slots, &about) else {
            return Err(AllocError);
        };
        let pass = Pass {
            seat,
            splits_left: 1_048_575,
            enters: 0,
            count: 0,
        };
        Ok((Hall { table, bells }, pass))
    }

    /// Splits off a pass that has seen as much and made no entries.
    pub fn split(&self, pass: &mut Pass<T>) -> Pass<T>
        requires hall { pass.old.hall ≡ self.now }
        requires left { 0 < pass.old.splits_left }
        ensures old { pass.new ≡ split_from pass.old }
        ensures new { result ≡ split_off pass.old }
    {
        let seat = self.table.shared.split_seat::<Parting>(&mut pass.seat);
        pass.splits_left -= 1;
        Pass {
            seat,
            splits_left: 0,
            enters: 0,
            count: 0,
        }
    }

    /// Waits until it is the pass's turn, and gives it the value. The value's history begins with all that the pass has seen.
    pub fn enter<R: Wait>(&self, rt: &R, pass: Pass<T>) -> Turn<'_, T>
        requires hall { pass.hall ≡ self.now }
        requires few { pass.enters < 2 ^ 40 }
        ensures seen { All (λ seen. IsPrefix seen (T.history result.value)) pass.seen }
        ensures origin { pass.origin ≡ Some (T.origin result.value) }
        ensures history { result.history ≡ T.history result.value }
        ensures pass { result.pass ≡ entering pass (T.history result.value) }
    {
        let Pass {
            mut seat,
            splits_left,
            enters,
            count,
        } = pass;
        let ticket = self.draw(&mut seat);
        self.wait(rt, &mut seat, ticket);
        let value = self.take(&mut seat);
        Turn {
            value,
            seat,
            splits_left,
            enters: enters + 1,
            count,
            hall: PhantomData,
        }
    }

    /// Ends a turn. `added` says whether the value's history has one entry more than at its beginning.
    pub fn leave(&self, turn: Turn<'_, T>, added: bool) -> Pass<T>
        requires hall { turn.pass.hall ≡ self.now }
        requires origin { turn.pass.origin ≡ Some (T.origin turn.value) }
        requires one { added ≡ true → (e : T.Entry) × (T.history turn.value ≡ turn.history ++ e ∷ []) }
        requires none { added ≡ false → T.history turn.value ≡ turn.history }
        ensures seen { result.seen ≡ T.history turn.entry.value ∷ [] }
        ensures one { added ≡ true → (e : T.Entry) → T.history turn.entry.value ≡ turn.entry.history ++ e ∷ [] → result.own ≡ with_more turn.entry.pass.own (e ∷ []) }
        ensures none { added ≡ false → result.own ≡ turn.entry.pass.own }
        ensures same { (result.hall ≡ turn.entry.pass.hall) × (result.origin ≡ turn.entry.pass.origin) × (result.enters ≡ turn.entry.pass.enters) × (result.splits_left ≡ turn.entry.pass.splits_left) }
    {
        let Turn {
            value,
            mut seat,
            splits_left,
            enters,
            count,
            hall: _,
        } = turn;
        self.give(&mut seat, value);
        if added {
            self.done_with_one(&mut seat);
            return Pass {
                seat,
                splits_left,
                enters,
                count: count.wrapping_add(1),
            };
        }
        self.done_with_none(&mut seat);
        Pass {
            seat,
            splits_left,
            enters,
            count,
        }
    }

    /// Joins a pass into another, which keeps what both have seen and made.
    pub fn join(&self, into: &mut Pass<T>, from: Pass<T>)
        requires into { into.old.hall ≡ self.now }
        requires from { from.hall ≡ self.now }
        ensures { into.new ≡ joined_with into.old from }
    {
        let Pass {
            seat,
            splits_left: _,
            enters: _,
            count,
        } = from;
        self.table.shared.join_seat::<Parting>(&mut into.seat, seat);
        into.count = into.count.wrapping_add(count);
    }

    /// Ends the hall, and gives its value back with the entries of the passes that were joined.
    ///
    /// `Drawn` comes where the two words differ, which means that some turn was not left. Then the value is dropped.
    pub fn close(self, pass: Pass<T>) -> Result<(T, Mine<T>), Drawn>
        requires { pass.hall ≡ self }
        ensures seen { IfOk result (λ r. All (λ seen. IsPrefix seen (T.history r.0)) pass.seen) }
        ensures origin { IfOk result (λ r. pass.origin ≡ Some (T.origin r.0)) }
        ensures mine { IfOk result (λ r. r.1 ≡ pass.own) }
        ensures own { IfOk result (λ r. HasOwn (T.history r.0) pass.own) }
        ensures whole { IfOk result (λ r. IsWhole pass → entry_count pass.own ≡ length (T.history r.0)) }
        ensures drawn { IfErr result (λ d. (d.served < d.drawn) × (IsWhole pass → ⊥)) }
    {
        let known = Snapshot::of(&pass);
        let Hall { table, bells: _ } = self;
        let Pass {
            seat,
            splits_left: _,
            enters: _,
            count,
        } = pass;
        let mut closed = table.close_with(seat);
        let drawn = closed.word(0);
        let served = closed.word(1);
        let slot = closed.take(0);
        closed.free();
        if drawn != served {
            return Err(Drawn { drawn, served });
        }
        let Some(value) = slot else { unreachable!() };
        Ok((value, Mine { count, pass: known }))
    }
}
