//! Lists of types in brackets.

ghost use Rattle.std.specs.Prelude.{◌≡◌, ◌<◌, ◌+◌, ◌^◌, length, IfSome};
ghost use Rattle.m5_poly.specs.Types.{step, closing, IsDeeper};

use crate::item::Item;
use crate::names::Names;
use crate::role::{Role, role_of};

/// What has to stand next.
#[derive(Clone, Copy, Debug, PartialEq, Eq)]
pub(crate) enum Need {
    /// A type.
    Begin,
    /// The `addr` behind a world.
    Addr,
    /// The world behind `at`.
    World,
    /// A type may end here, or go on.
    More,
}

/// What a token does in a list of types.
pub(crate) enum Step {
    /// It ends the list.
    Ends,
    /// It goes on: what has to stand next, and how many parentheses are open.
    Goes(Need, usize),
    /// It does not fit.
    Stops,
}

fn step_of(role: Role, need: Need, depth: usize) -> Step
    requires { depth + 1 < 2 ^ 64 }
    ensures step { result ≡ step role need depth }
    ensures deeper { IsDeeper result depth }
{
    match (role, need) {
        (Role::Open, Need::Begin) => Step::Goes(Need::Begin, depth + 1),
        (Role::Prefix, Need::Begin) => Step::Goes(Need::Begin, depth),
        (Role::Base, Need::Begin) => Step::Goes(Need::More, depth),
        (Role::World, Need::Begin) => Step::Goes(Need::Addr, depth),
        (Role::Addr, Need::Addr) => Step::Goes(Need::More, depth),
        (Role::World, Need::World) => Step::Goes(Need::More, depth),
        (Role::Suffix, Need::More) => Step::Goes(Need::More, depth),
        (Role::At, Need::More) => Step::Goes(Need::World, depth),
        (Role::Infix, Need::More) => Step::Goes(Need::Begin, depth),
        (Role::Close, Need::More) if depth > 0 => Step::Goes(Need::More, depth - 1),
        (Role::Comma, Need::More) if depth == 0 => Step::Goes(Need::Begin, 0),
        (Role::Closing, Need::More) if depth == 0 => Step::Ends,
        _ => Step::Stops,
    }
}

/// How many tokens of types, parted by commas, stand before the `]` that ends them; none where they are no such list.
pub(crate) fn closing(variables: &Names, tokens: &[Item]) -> Option<usize>
    ensures length { result ≡ closing variables.now Need.Begin 0 tokens.now }
    ensures within { IfSome result (λ n. n < length tokens.now) }
{
    let mut need = Need::Begin;
    let mut depth = 0;
    for (index, placed) in tokens.iter().enumerate() {
        match step_of(role_of(variables, placed.token()), need, depth) {
            Step::Ends => return Some(index),
            Step::Stops => return None,
            Step::Goes(next, more) => {
                need = next;
                depth = more;
            }
        }
    }
    None
}
