//! The board that the sites of all sessions share, with the entries of what it answered.

ghost use Rattle.std.specs.Prelude.{◌≡◌, ◌+◌, [], length, IfOk, OnErr};
ghost use Rattle.m5_terms.specs.Worlds.{IsSiteWorld};
ghost use Rattle.m5_network.specs.Claim.{ending, stop_count};
ghost use Rattle.m5_network.specs.Opening.{opening_board_by};
ghost use Rattle.m5_board.specs.Boards.{board_of, IsSession};
ghost use Rattle.m5_shared.specs.Shared.{IsAct, history_of};

use crate::bytes::{MessageBytes, delivered, is_nothing, posted};
use m5_board::board::{Answered, Board};
use m5_script::script::Script;
use m5_terms::ask::{Act, Answer, Ask, End, Entries, Entry, History};
use m5_terms::types::World;
use std::alloc::{AllocError, Global};
use std::marker::Model;

/// The board, the entries so far, and how many of them are stops.
#[derive(Drop)]
pub struct Shared {
    held_board: Board<MessageBytes>,
    held_entries: Entries,
    stops: u32,
}

impl Model for Shared {
    ghost use Rattle.std.specs.Prelude.{◌≡◌};
    ghost use Rattle.m5_shared.specs.Shared.{SharedBoard, stops_in};

    ghost Value = { SharedBoard };

    ghost view = { λ s. record { board = s.held_board; entries = s.held_entries } };

    ghost invariant = { λ s. s.stops ≡ stops_in s.held_entries };
}

/// How many stops there are after an entry. No memory holds more than are counted here.
fn stops_after(stops: u32, act: &Act) -> Result<u32, AllocError>
    ensures { IfOk result (λ n. n ≡ stops + stop_count act.now) }
{
    if matches!(act, Act::Stop(_)) {
        stops.checked_add(1).ok_or(AllocError)
    } else {
        Ok(stops)
    }
}

/// How a history with so many stops ends.
fn end_after(stops: u32) -> End
    ensures { result ≡ ending stops }
{
    match stops {
        0 => End::Rest,
        count => End::Stopped(count),
    }
}

impl Shared {
    /// The board with what the script says, and no entry.
    pub fn make(alloc: Global, script: &Script) -> Result<Shared, AllocError>
        ensures board { IfOk result (λ s. board_of s.board ≡ opening_board_by (λ bytes. bytes) script.now) }
        ensures count { IfOk result (λ s. length s.board.desks ≡ script.now.sessions) }
        ensures entries { IfOk result (λ s. s.entries ≡ []) }
    {
        Ok(Shared {
            held_board: Board::opening(alloc, script)?,
            held_entries: Entries::make(alloc),
            stops: 0,
        })
    }

    /// The board's answer to what a session's site at a world asks. The entry of the deed is added,
    /// unless the site looked and found nothing. After an `Err` the value is not used again; its
    /// entries are as before.
    pub fn act(
        &mut self,
        alloc: Global,
        session: u32,
        world: World,
        ask: Ask,
    ) -> Result<Answer, AllocError>
        requires session { IsSession session self.old.board.desks }
        requires world { IsSiteWorld world }
        ensures act { IfOk result (IsAct session world ask self.old self.new) }
        ensures count { length self.new.board.desks ≡ length self.old.board.desks }
        ensures err { OnErr result (self.new.entries ≡ self.old.entries) }
    {
        let Answered { reply, act } = self.held_board.answer(alloc, session, world, posted(ask))?;
        let reply = delivered(reply);
        if is_nothing(&reply) {
            return Ok(reply);
        }
        let stops = stops_after(self.stops, &act)?;
        self.held_entries.push(Entry {
            session,
            world,
            act,
        })?;
        self.stops = stops;
        Ok(reply)
    }

    /// How many entries it holds.
    pub fn count(&self) -> u64
        ensures { result ≡ length self.now.entries }
    {
        self.held_entries.count()
    }

    /// The entries, and as their end how many sites stopped, or rest where none did.
    pub fn into_history(self) -> History
        ensures { result ≡ history_of self.entries }
    {
        let Shared {
            held_board,
            held_entries,
            stops,
        } = self;
        drop(held_board);
        History {
            entries: held_entries,
            end: end_after(stops),
        }
    }
}
