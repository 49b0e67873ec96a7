//! What begins every message of a session.

ghost use Rattle.std.specs.Prelude.{◌≡◌};
ghost use Rattle.m5_terms.specs.Seal.{seal_bytes};

/// The eight bytes with which each message of one session begins.
#[derive(Clone, Copy, Debug, PartialEq, Eq)]
pub struct Seal(pub [u8; 8]);

/// The seal of a session by its number: `ML5s`, then the number, high byte first.
pub fn seal_of(session: u32) -> Seal
    ensures { result.0 ≡ seal_bytes session }
{
    let [high, upper, lower, low] = session.to_be_bytes();
    Seal([b'M', b'L', b'5', b's', high, upper, lower, low])
}
