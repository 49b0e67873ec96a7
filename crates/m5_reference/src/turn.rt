//! One turn of a site.

ghost use Rattle.std.specs.Prelude.{◌≡◌, length, IfOk, Some};
ghost use Rattle.m5_terms.specs.Worlds.{IsSiteWorld};
ghost use Rattle.m5_script.specs.Scenario.{Scenario};
ghost use Rattle.m5_network.specs.Board.{answer_of};
ghost use Rattle.m5_network.specs.Run.{Network};
ghost use Rattle.m5_source_site.specs.ClosedSite.{IsClosedSite};
ghost use Rattle.m5_source_site.specs.Waiting.{resumed};
ghost use Rattle.m5_sites.specs.ClosedSites.{IsClosedBoard};
ghost use Rattle.m5_board.specs.Boards.{board_of, IsSession};
ghost use Rattle.m5_reference.specs.Moments.{HasLimits};
ghost use Rattle.m5_reference.specs.Ahead.{IsAhead};
ghost use Rattle.m5_reference.specs.Turning.{IsTurned, IsAskTurned};
ghost use Rattle.m5_reference.specs.ClosedTurn.{IsClosedTurned};

use crate::limits::Limits;
use crate::moment::{Moment, next_moment};
use m5_board::board::{Answered, Board};
use m5_script::items::SiteName;
use m5_sites::resume::{is_nothing, keep, resume};
use m5_source_site::item::{LinkItem, SiteAsk};
use m5_source_site::measured::MeasuredProgram;
use m5_source_site::resume::Waiting;
use m5_source_site::site::Site;
use m5_terms::ask::Act;
use std::alloc::{AllocError, Global};

/// A deed, with the site after it unless it has stopped and with what the history shows; nothing
/// found, with the site that waits; or that the meaning has no way to go on.
#[derive(Drop)]
pub enum Turned {
    Acts(Option<Site>, Act),
    Rests(Site),
    Wrong,
}

/// The turn of a site that asks.
fn answer_turn(
    alloc: Global,
    program: &MeasuredProgram<'_>,
    board: &mut Board<LinkItem>,
    name: SiteName,
    query: SiteAsk,
    waiting: Waiting,
) -> Result<Turned, AllocError>
    requires session { IsSession name.session board.old.desks }
    requires world { IsSiteWorld name.world }
    ensures board { let x = answer_of (board_of board.old) name.session name.world query in IfOk result (λ t. board_of board.new ≡ x.board) }
    ensures turned { let x = answer_of (board_of board.old) name.session name.world query in IfOk result (IsAskTurned waiting.site query (resumed program.now name.world waiting.site waiting.wait) x) }
    ensures count { length board.new.desks ≡ length board.old.desks }
{
    let Answered { reply, act } = board.answer(alloc, name.session, name.world, query)?;
    if is_nothing(&reply) {
        return Ok(Turned::Rests(waiting.site));
    }
    match resume(alloc, program, name.world, waiting, reply)? {
        Some(site) => Ok(Turned::Acts(keep(site), act)),
        None => Ok(Turned::Wrong),
    }
}

/// One turn of a site by its next moment. The site may be ahead of that of the network by local
/// steps before which no stop is licensed.
pub fn turn(
    alloc: Global,
    program: &MeasuredProgram<'_>,
    limits: Limits,
    board: &mut Board<LinkItem>,
    name: SiteName,
    site: Site,
) -> Result<Turned, AllocError>
    requires closed { IsClosedSite site }
    requires session { IsSession name.session board.old.desks }
    requires world { IsSiteWorld name.world }
    ensures turned { (S : Scenario) (N : Network) → HasLimits S limits → board_of board.old ≡ N.board → IsAhead program.now S name.world (N.site name.session name.world) (Some site) → IfOk result (IsTurned program.now S N name.session name.world board.new) }
    ensures closed { IsClosedBoard (board_of board.old) → IfOk result IsClosedTurned }
    ensures closed_board { IsClosedBoard (board_of board.old) → IfOk result (λ t. IsClosedBoard (board_of board.new)) }
    ensures count { length board.new.desks ≡ length board.old.desks }
{
    match next_moment(alloc, program, limits, name.world, site)? {
        Moment::Stops(cause) => Ok(Turned::Acts(None, Act::Stop(cause))),
        Moment::Asks(query, waiting) => answer_turn(alloc, program, board, name, query, waiting),
        Moment::Wrong => Ok(Turned::Wrong),
    }
}
