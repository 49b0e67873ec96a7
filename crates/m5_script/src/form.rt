//! What a line of a script can be, and what is wrong with one.

ghost use Rattle.std.specs.Prelude.{◌≡◌};
ghost use Rattle.m5_script.specs.declared.form.LineEnd.TheVariants.{Memory};

use crate::items::Sites;
use m5_terms::text::Text;
use m5_terms::types::World;
use std::alloc::AllocError;

/// What stands in one line. Numbers past a million are read as a million.
#[derive(Drop)]
pub enum Form {
    /// An empty line, or a remark.
    Skipped,
    Sessions(u32),
    Steps(u32),
    Region(u32),
    Store(Text, Text),
    Event(u32, Text, Text),
    Raw(u32, World, Text),
    Order(Sites),
}

/// The first word of a line.
#[derive(Clone, Copy, Debug, PartialEq, Eq)]
pub enum Keyword {
    Sessions,
    Steps,
    Region,
    Store,
    Event,
    Raw,
    Order,
}

/// Why a line has no form.
#[derive(Debug, Drop)]
pub enum LineEnd {
    Memory,
    Syntax,
}

impl From<AllocError> for LineEnd {
    ghost from_gives = { λ _ e. e ≡ Memory };

    fn from(_error: AllocError) -> LineEnd {
        LineEnd::Memory
    }
}
