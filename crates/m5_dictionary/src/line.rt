//! The lines of the type table.

ghost use Rattle.std.specs.Prelude.{◌≡◌, ◌↔◌, IsTrue};
ghost use Rattle.m5_dictionary.specs.Dictionaries.{is_object, code_of_world};

use m5_terms::types::World;

/// What a type id stands for; a part is the id of an earlier line. Functions and continuations are
/// `Fun` of what they take, and a cell is one whatever it holds.
#[derive(Clone, Copy, PartialEq, Eq, Debug)]
pub enum TypeLine {
    Unit,
    Bool,
    Int,
    Text,
    Pair(u32, u32),
    Sum(u32, u32),
    List(u32),
    Fun(u32),
    Cell,
    Addr(World),
}

/// Whether two lines are one.
pub fn is_same_line(a: TypeLine, b: TypeLine) -> bool
    ensures { IsTrue result ↔ (a ≡ b) }
{
    a == b
}

/// Whether values of the type are objects of a region.
pub fn is_object(line: TypeLine) -> bool
    ensures { result ≡ is_object line }
{
    matches!(
        line,
        TypeLine::Text
            | TypeLine::Pair(_, _)
            | TypeLine::Sum(_, _)
            | TypeLine::List(_)
            | TypeLine::Fun(_)
    )
}

/// The number that stands for a world, as in an address: 0 home, 1 server, 2 panel. No address is of
/// `Any`, which has 3.
pub fn code_of_world(world: World) -> u8
    ensures { result ≡ code_of_world world }
{
    match world {
        World::Home => 0,
        World::Server => 1,
        World::Panel => 2,
        World::Any => 3,
    }
}
