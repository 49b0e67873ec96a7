//! The board: the key store and what each session has.

ghost use Rattle.std.specs.Prelude.{◌≡◌, [], length};

use crate::desk::Desk;
use m5_keys::keys::Keys;
use m5_terms::ask::{Act, AnswerOf};
use std::marker::Model;

/// The board. Sessions are numbered from 1.
#[derive(Drop)]
pub struct Board<I> {
    pub(crate) keys: Keys,
    pub(crate) desks: Vec<Desk<I>>,
}

impl<I> Model for Board<I> {
    ghost use Rattle.m5_board.specs.Boards.{BoardLists, IsBoard};

    ghost Value = { BoardLists I };

    ghost view = { λ b. record { pairs = b.keys.pairs; watches = b.keys.watches; desks = b.desks.items } };

    ghost invariant = { λ b. IsBoard (record { pairs = b.keys.pairs; watches = b.keys.watches; desks = b.desks.items }) };
}

/// An answer, and what the history shows of the deed.
#[derive(Drop)]
pub struct Answered<I> {
    pub reply: AnswerOf<I>,
    pub act: Act,
}

impl<I> Board<I> {
    /// A board without watches, over a key store and what each session has.
    pub(crate) fn without_watches(keys: Keys, desks: Vec<Desk<I>>) -> Board<I>
        requires { keys.watches ≡ [] }
        ensures { result ≡ record { pairs = keys.pairs; watches = []; desks = desks.items } }
    {
        Board { keys, desks }
    }

    /// How many sessions it has.
    pub fn session_count(&self) -> u64
        ensures { result ≡ length self.now.desks }
    {
        self.desks.len() as u64
    }
}
