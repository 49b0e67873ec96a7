//! How a program text is refused.

ghost use Rattle.std.specs.Prelude.{◌≡◌};

use m5_elaborate::end::Kind;
use m5_lex::Place;

/// What is wrong with a program text.
#[derive(Clone, Copy, Debug, PartialEq, Eq)]
pub enum Fault {
    /// A byte that fits nowhere.
    Byte,
    /// A number above 9,223,372,036,854,775,807.
    Number,
    /// A token that no program has after those before it, or the end of the text there.
    Syntax,
    /// A token whose level exceeds 400.
    Deep,
    /// The first of the nodes past 16,000.
    TooMany,
    /// A name that nothing binds.
    Unbound,
    /// A name that is declared again.
    Repeated,
    /// An extern that is no primitive.
    BadExtern,
    /// A check of types that fails.
    Types(Kind),
}

/// A fault and its place.
#[derive(Clone, Copy, Debug, PartialEq, Eq)]
pub struct Refusal {
    pub fault: Fault,
    pub place: Place,
}

/// Why a program is not read.
#[derive(Clone, Copy, Debug, PartialEq, Eq)]
pub enum FrontEnd {
    /// There is no memory left.
    Memory,
    /// The text is no program.
    Refused(Refusal),
}

impl FrontEnd {
    pub(crate) fn refused(fault: Fault, place: Place) -> FrontEnd
        ensures { result ≡ FrontEnd.Refused (record { fault = fault; place = place }) }
    {
        FrontEnd::Refused(Refusal { fault, place })
    }
}
