//! A run on its way.

ghost use Rattle.std.specs.Prelude.{◌≡◌, [], IfOk};
ghost use Rattle.m5_network.specs.Opening.{opening};
ghost use Rattle.m5_replay.specs.code.Running.{StandsAt, IsReady};

use m5_board::board::Board;
use m5_script::script::Script;
use m5_sites::opening::open_sites;
use m5_sites::sites::SessionSites;
use m5_source_site::item::LinkItem;
use m5_source_site::measured::MeasuredProgram;
use std::alloc::{AllocError, Global};

/// The sites and the board, what all local steps, asks and takes weigh so far, and how many sites have stopped.
#[derive(Drop)]
pub struct Running {
    pub sites: Vec<SessionSites>,
    pub board: Board<LinkItem>,
    pub weight: u64,
    pub stops: u32,
}

/// The run as it opens.
pub fn open(
    alloc: Global,
    program: &MeasuredProgram<'_>,
    script: &Script,
) -> Result<Running, AllocError>
    ensures stands { IfOk result (λ r. StandsAt script.now r (opening program.now script.now) 0 []) }
    ensures ready { IfOk result (IsReady script.now.sessions) }
{
    program.closed_holds();
    Ok(Running {
        sites: open_sites(alloc, program, script.sessions)?,
        board: Board::opening(alloc, script)?,
        weight: 0,
        stops: 0,
    })
}
