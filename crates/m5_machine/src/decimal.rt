//! A number in decimal, in room of its own.

ghost use Rattle.std.specs.Prelude.{◌≡◌, ◌+◌, ◌<◌, ◌≤◌, ◌^◌, ◌++◌, length, drop};
ghost use Rattle.std.specs.Fmt.{decimal, signed_decimal};

/// The most bytes of a number of 64 bits in decimal.
pub const MOST_DIGITS: usize = 20;

/// Writes the digits at the end of the buffer, and answers where they begin.
fn put_digits(buffer: &mut [u8; 20], number: u64) -> usize
    ensures start { result + length (decimal number) ≡ 20 }
    ensures written { drop result buffer.new ≡ decimal number }
{
    let mut left = number;
    let mut at = MOST_DIGITS;
    while left >= 10 {
        at -= 1;
        buffer[at] = b'0' + (left % 10) as u8;
        left /= 10;
    }
    at -= 1;
    buffer[at] = b'0' + left as u8;
    at
}

/// Writes a number at the end of the buffer, and answers where it begins.
pub fn put_decimal(buffer: &mut [u8; 20], number: i64) -> usize
    ensures within { result ≤ 20 }
    ensures written { drop result buffer.new ≡ signed_decimal number }
{
    let start = put_digits(buffer, number.unsigned_abs());
    if number >= 0 {
        return start;
    }
    buffer[start - 1] = b'-';
    start - 1
}
