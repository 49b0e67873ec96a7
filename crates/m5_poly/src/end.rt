//! Why a text is not expanded.

use m5_lex::Place;
use std::alloc::AllocError;

/// Why the generic declarations of a text are not written out.
#[derive(Clone, Copy, Debug, PartialEq, Eq)]
pub enum PolyEnd {
    /// There is no memory left.
    Memory,
    /// A name with `''` in it, a `fun [` without a list of different names and a `]`, or a use of no generic declaration
    /// that stands before or around it.
    Generic(Place),
    /// The name of a second generic declaration of that name.
    Repeated(Place),
    /// A use of the surrounding declaration with other arguments than those of its instance.
    Instance(Place),
    /// The use that would make the 257th instance.
    Instances(Place),
    /// The token at which more than 4,194,304 are read.
    Long(Place),
}

impl From<AllocError> for PolyEnd {
    ghost use Rattle.std.specs.Prelude.{◌≡◌};
    ghost use Rattle.m5_poly.specs.declared.end.PolyEnd.TheVariants.{Memory};

    ghost from_gives = { λ _ e. e ≡ Memory };

    fn from(_error: AllocError) -> PolyEnd {
        PolyEnd::Memory
    }
}
