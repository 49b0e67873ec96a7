//! The laws of the conversion, each on a function that does nothing.

ghost use Rattle.m5_cps_convert.specs.Laws.{BlocksMatch, BlocksArePaid, BlocksPlay, BlocksOpen, OpeningsPlayFully, SentIsLight, BlocksFit, BlocksAreFew};

/// At each world the blocks of a program go on as the program does: steps, asks, whatever lawful answers, and never wrong but
/// where the program is.
pub fn blocks_match_holds()
    ensures { BlocksMatch }
{}

/// Each entry into a block and each object about to be made is paid for by the source's steps and weight.
pub fn blocks_are_paid_holds()
    ensures { BlocksArePaid }
{}

/// From each state that is read back, the blocks play along with the source.
pub fn blocks_play_holds()
    ensures { BlocksPlay }
{}

/// Each site of blocks begins where the source's does.
pub fn blocks_open_holds()
    ensures { BlocksOpen }
{}

/// From its opening each site of blocks plays along with the source's, and never goes wrong.
pub fn openings_play_fully_holds()
    ensures { OpeningsPlayFully }
{}

/// A thread that is sent takes at most four times the size of the source's.
pub fn sent_is_light_holds()
    ensures { SentIsLight }
{}

/// The blocks of a program are typed; their endings nest at most 1,000 deep, and no block has more than 65,536 slots.
pub fn converted_blocks_fit_holds()
    ensures { BlocksFit }
{}

/// A program of n nodes has at most 3 * n + 1 blocks.
pub fn blocks_are_few_holds()
    ensures { BlocksAreFew }
{}
