//! What a pass knows of its hall, the rule over all that passes know, and what each kind of step tells.
use crate::kept::Kept;
use atomic_table::{Join, Play, Split, TableRule};
use std::collections::LinkedList;
use std::marker::PhantomData;
use std::snapshot::Snapshot;

/// Where a pass stands in the queue.
pub enum Stage {
    Resting,
    /// It has drawn this ticket.
    Waiting(u64),
    /// This ticket is served, and the slot is the pass's.
    Serving(u64),
}

/// What a pass knows. No value of it is made.
pub struct View<E, O> {
    /// Nothing in a pass that was joined into another.
    pub origin: Option<O>,
    /// Histories that it has seen.
    pub seen: LinkedList<LinkedList<E>>,
    /// Its number with its own entries, and then those of the passes that were joined into it.
    pub own: LinkedList<(u64, LinkedList<E>)>,
    pub stage: Stage,
    pub enters: u64,
    pub splits_left: u64,
}

pub struct Law<T> {
    of: PhantomData<T>,
}

impl<T: Kept> TableRule<Option<T>, View<T::Entry, T::Origin>, Snapshot<T>> for Law<T> {
    ghost use Rattle.m5_hall.specs.Rule.{HallRule, first_view};

    ghost holds = { λ key. HallRule T.history T.origin (T.origin key.value) };

    ghost first = { λ key. first_view (T.origin key.value) };
}

/// A ticket is drawn.
pub struct Draw;

impl<T: Kept> Play<Option<T>, View<T::Entry, T::Origin>> for Draw {
    ghost use Rattle.m5_hall.specs.Steps.{Drew};

    ghost then = { Drew T.history T.origin };
}

/// The word that says which ticket is served is read. At the pass's own ticket it takes the slot.
pub struct Look;

impl<T: Kept> Play<Option<T>, View<T::Entry, T::Origin>> for Look {
    ghost use Rattle.m5_hall.specs.Steps.{Looked};

    ghost then = { Looked T.history T.origin };
}

/// The next ticket is served, and the history has one entry more.
pub struct DoneWithOne;

impl<T: Kept> Play<Option<T>, View<T::Entry, T::Origin>> for DoneWithOne {
    ghost use Rattle.m5_hall.specs.Steps.{LeftOne};

    ghost then = { LeftOne T.history T.origin };
}

/// The next ticket is served, and the history is as it was.
pub struct DoneWithNone;

impl<T: Kept> Play<Option<T>, View<T::Entry, T::Origin>> for DoneWithNone {
    ghost use Rattle.m5_hall.specs.Steps.{LeftNone};

    ghost then = { LeftNone T.history T.origin };
}

/// A pass is split off, or one is joined into another.
pub struct Parting;

impl<E, O> Split<View<E, O>> for Parting {
    ghost use Rattle.m5_hall.specs.Steps.{split_left, split_right};

    ghost left = { split_left };

    ghost right = { split_right };
}

impl<E, O> Join<View<E, O>> for Parting {
    ghost use Rattle.m5_hall.specs.Steps.{joined, spent};

    ghost both = { joined };

    ghost spent = { spent };
}
