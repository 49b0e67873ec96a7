//! Why a program's names have no meaning.

use m5_lex::Place;
use std::alloc::AllocError;

/// Why a tree is not resolved.
#[derive(Clone, Copy, Debug, PartialEq, Eq)]
pub enum ScopeEnd {
    /// There is no memory left.
    Memory,
    /// The program has more than 16,000 nodes of expressions and types: the place of the first one too many.
    TooMany(Place),
    /// The place of a name that nothing binds there.
    Unbound(Place),
    /// The place of the name at its second declaration outside expressions.
    Repeated(Place),
    /// The place of the name of an extern that is no primitive's.
    BadExtern(Place),
}

impl From<AllocError> for ScopeEnd {
    ghost use Rattle.std.specs.Prelude.{◌≡◌};
    ghost use Rattle.m5_scope.specs.declared.end.ScopeEnd.TheVariants.{Memory};

    ghost from_gives = { λ _ e. e ≡ Memory };

    fn from(_error: AllocError) -> ScopeEnd {
        ScopeEnd::Memory
    }
}
