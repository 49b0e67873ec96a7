//! Why a program has no type.

use m5_lex::Place;
use std::alloc::AllocError;

/// What the first check that fails looked for.
#[derive(Clone, Copy, Debug, PartialEq, Eq)]
pub enum Kind {
    /// A local variable, an extern or a declared function is used at another world than its own.
    WrongWorld,
    /// A value of a type that means something at its own world alone would leave it.
    NotMobile,
    /// Two types that have to be one are not.
    Mismatch,
    /// What is called is no function.
    NotFunction,
    /// What is projected is no pair.
    NotPair,
    /// What is taken apart, or written at `inl` and `inr`, is no sum.
    NotSum,
    /// What is taken apart, or put behind `::`, is no list.
    NotList,
    /// What is read or written is no cell.
    NotCell,
    /// What `leta` opens is held at no world.
    NotAt,
    /// What `lets` opens is not sham.
    NotSham,
    /// A form that needs a world of its own stands where no world is known.
    NotGeneric,
    /// A type has more than 1,024 nodes.
    TooLarge,
}

/// Why a program is not elaborated.
#[derive(Clone, Copy, Debug, PartialEq, Eq)]
pub enum TypeEnd {
    /// There is no memory left.
    Memory,
    /// The first check that fails, with the place of its node.
    Refused(Kind, Place),
}

impl From<AllocError> for TypeEnd {
    ghost use Rattle.std.specs.Prelude.{◌≡◌};
    ghost use Rattle.m5_elaborate.specs.declared.end.TypeEnd.TheVariants.{Memory};

    ghost from_gives = { λ _ e. e ≡ Memory };

    fn from(_error: AllocError) -> TypeEnd {
        TypeEnd::Memory
    }
}
