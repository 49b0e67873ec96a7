//! Places in a text.

ghost use Rattle.std.specs.Prelude.{◌≡◌, ◌+◌, ◌<◌, ◌^◌, length};
ghost use Rattle.m5_lex.specs.Place.{after, after_byte, first_place};

/// The line and the column of a byte, both from 1, the column in bytes.
#[derive(Clone, Copy, Debug, PartialEq, Eq)]
pub struct Place {
    pub line: u32,
    pub column: u32,
}

impl Place {
    /// The place of the first byte.
    pub(crate) fn first() -> Place
        ensures { result ≡ first_place }
    {
        Place { line: 1, column: 1 }
    }

    /// The place after a byte: byte 10 ends a line.
    fn after_byte(self, byte: u8) -> Place
        requires line { self.line + 1 < 2 ^ 32 }
        requires column { self.column + 1 < 2 ^ 32 }
        ensures { result ≡ after_byte self byte }
    {
        if byte == b'\n' {
            Place {
                line: self.line + 1,
                column: 1,
            }
        } else {
            Place {
                line: self.line,
                column: self.column + 1,
            }
        }
    }

    /// The place after these bytes.
    #[tactic(auto, using(crate::proofs::Placing::after_next, crate::proofs::Placing::passed_next))]
    pub(crate) fn after(self, bytes: &[u8]) -> Place
        requires line { self.line + length bytes.now < 2 ^ 32 }
        requires column { self.column + length bytes.now < 2 ^ 32 }
        ensures { result ≡ after self bytes.now }
    {
        let mut place = self;
        for byte in bytes {
            place = place.after_byte(*byte);
        }
        place
    }
}
