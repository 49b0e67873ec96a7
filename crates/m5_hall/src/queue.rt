//! The steps of one pass through the queue, on its seat at the hall's table.
ghost use Rattle.std.specs.Prelude.{◌≡◌, ◌<◌, ◌^◌, ℕ, [], ◌∷◌, length, Some, None};
ghost use Rattle.m5_hall.specs.Steps.{drawing, Serves, MayLeave, leaving};
ghost use Rattle.m5_hall.specs.declared.views.Stage.TheVariants.{Resting, Waiting};

use crate::hall::Hall;
use crate::kept::Kept;
use crate::views::{DoneWithNone, DoneWithOne, Draw, Look, View};
use atomic_table::Seat;
use std::hint;
use std::sync::Wait;

// The word that has the next ticket, and the word that has the ticket that is served.
const NEXT: usize = 0;

const SERVED: usize = 1;

// How often a pass looks before it sleeps.
const LOOKS: u32 = 64;

pub(crate) type Place<T> = Seat<Option<T>, View<<T as Kept>::Entry, <T as Kept>::Origin>>;

impl<T: Kept> Hall<T> {
    // Draws the next ticket.
    pub(crate) fn draw(&self, seat: &mut Place<T>) -> u64
        requires hall { seat.old.table_id ≡ self.now }
        requires rests { seat.old.me.0.stage ≡ Resting }
        requires few { seat.old.me.0.enters < 2 ^ 40 }
        requires owns { 0 < length seat.old.me.0.own }
        ensures hall { seat.new.table_id ≡ seat.old.table_id }
        ensures drawn { seat.new.me ≡ (drawing result seat.old.me.0, seat.old.me.1) }
    {
        self.table.shared.fetch_add::<Draw>(seat, NEXT, 1)
    }

    // Looks until the ticket is served, and takes the slot.
    // It asks for the bell before it looks, so that no ring comes between the look and the sleep.
    pub(crate) fn wait<R: Wait>(&self, rt: &R, seat: &mut Place<T>, ticket: u64)
        requires hall { seat.old.table_id ≡ self.now }
        requires waits { seat.old.me.0.stage ≡ Waiting ticket }
        ensures hall { seat.new.table_id ≡ seat.old.table_id }
        ensures served { Serves T.history T.origin ticket seat.old.me seat.new.me }
    {
        let mut looks_left = LOOKS;
        for _ in rt.forever() {
            let heard = self.bells.heard(ticket);
            let served = self.table.shared.load::<Look>(seat, SERVED);
            if served == ticket {
                return;
            }
            if looks_left > 0 {
                looks_left -= 1;
                hint::spin_loop();
                continue;
            }
            self.bells.sleep(rt, ticket, heard);
        }
        unreachable!()
    }

    // Wakes the pass that is next, where one has drawn a ticket behind this one.
    fn call_next(&self, ticket: u64) {
        let next = ticket.wrapping_add(1);
        if self.table.shared.peek(NEXT) != next {
            self.bells.ring(next);
        }
    }

    // Takes the value out of the slot in hand.
    pub(crate) fn take(&self, seat: &mut Place<T>) -> T
        requires hall { seat.old.table_id ≡ self.now }
        requires full { (x : T) × (seat.old.me.1 ≡ (0, Some x) ∷ []) }
        ensures hall { seat.new.table_id ≡ seat.old.table_id }
        ensures value { seat.old.me.1 ≡ (0, Some result) ∷ [] }
        ensures empty { seat.new.me ≡ (seat.old.me.0, (0, None) ∷ []) }
    {
        let Some(value) = self.table.shared.exchange(seat, 0, None) else {
            unreachable!()
        };
        value
    }

    // Puts the value back into the slot in hand.
    pub(crate) fn give(&self, seat: &mut Place<T>, value: T)
        requires hall { seat.old.table_id ≡ self.now }
        requires empty { seat.old.me.1 ≡ (0, None) ∷ [] }
        ensures hall { seat.new.table_id ≡ seat.old.table_id }
        ensures full { seat.new.me ≡ (seat.old.me.0, (0, Some value) ∷ []) }
    {
        self.table.shared.exchange(seat, 0, Some(value));
    }

    // Ends the turn with one entry, and the next ticket is served.
    pub(crate) fn done_with_one(&self, seat: &mut Place<T>)
        requires hall { seat.old.table_id ≡ self.now }
        requires leaves { (y : T) × (e : T.Entry) × MayLeave T.history T.origin seat.old.me y (e ∷ []) }
        ensures hall { seat.new.table_id ≡ seat.old.table_id }
        ensures left { seat.new.me ≡ (leaving T.history T.origin seat.old.me.0 seat.old.me.1, []) }
    {
        let ticket = self.table.shared.fetch_add::<DoneWithOne>(seat, SERVED, 1);
        self.call_next(ticket);
    }

    // Ends the turn with no entry, and the next ticket is served.
    pub(crate) fn done_with_none(&self, seat: &mut Place<T>)
        requires hall { seat.old.table_id ≡ self.now }
        requires leaves { (y : T) × MayLeave T.history T.origin seat.old.me y [] }
        ensures hall { seat.new.table_id ≡ seat.old.table_id }
        ensures left { seat.new.me ≡ (record seat.old.me.0 { stage = Resting }, []) }
    {
        let ticket = self.table.shared.fetch_add::<DoneWithNone>(seat, SERVED, 1);
        self.call_next(ticket);
    }
}
