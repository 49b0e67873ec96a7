//! Lines of the type table as keys.

ghost use Rattle.std.specs.Prelude.{◌≡◌};
ghost use Rattle.m5_dict.specs.Lines.{line_of, address_line};

use m5_dictionary::line::TypeLine;
use m5_terms::types::World;

/// A line of the type table, for which a map has a hash. An address is that of a site.
#[derive(Clone, Copy, PartialEq, Eq, Hash, Drop)]
pub enum Target {
    Unit,
    Bool,
    Int,
    Text,
    Pair(u32, u32),
    Sum(u32, u32),
    List(u32),
    Fun(u32),
    Cell,
    AddrHome,
    AddrServer,
    AddrPanel,
}

/// The line.
pub fn line_of(target: Target) -> TypeLine
    ensures { result ≡ line_of target }
{
    match target {
        Target::Unit => TypeLine::Unit,
        Target::Bool => TypeLine::Bool,
        Target::Int => TypeLine::Int,
        Target::Text => TypeLine::Text,
        Target::Pair(first, second) => TypeLine::Pair(first, second),
        Target::Sum(left, right) => TypeLine::Sum(left, right),
        Target::List(item) => TypeLine::List(item),
        Target::Fun(argument) => TypeLine::Fun(argument),
        Target::Cell => TypeLine::Cell,
        Target::AddrHome => TypeLine::Addr(World::Home),
        Target::AddrServer => TypeLine::Addr(World::Server),
        Target::AddrPanel => TypeLine::Addr(World::Panel),
    }
}

/// The line of an address. No site is of `Any`: its address has no values, and the line of unit.
pub fn address(world: World) -> Target
    ensures { line_of result ≡ address_line world }
{
    match world {
        World::Home => Target::AddrHome,
        World::Server => Target::AddrServer,
        World::Panel => Target::AddrPanel,
        World::Any => Target::Unit,
    }
}
