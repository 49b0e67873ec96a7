//! Decimal numbers, as they are read and written.

ghost use Rattle.std.specs.Prelude.{◌≡◌, ◌≤◌, ◌++◌, OnOk};
ghost use Rattle.std.specs.Fmt.{decimal};
ghost use Rattle.std.specs.List.{AllPass};
ghost use Rattle.std.specs.Option.{SomeIff};
ghost use Rattle.std.specs.Str.Parse.{digits_value};
ghost use Rattle.m5_terms.specs.Decimal.{is_digit};

use std::alloc::{AllocError, Global};

/// Whether the byte is one of 0 to 9.
pub fn is_digit(byte: u8) -> bool
    ensures { result ≡ is_digit byte }
{
    byte >= b'0' && byte <= b'9'
}

/// The value of some digits, where it is at most this limit, which is one of at least nine.
#[tactic(auto, using(crate::proofs::Digits::value_next, crate::proofs::Digits::value_above))]
pub fn value_within(digits: &[u8], most: u64) -> Option<u64>
    requires digits { AllPass is_digit digits.now }
    requires most { 9 ≤ most }
    ensures { SomeIff result (digits_value 10 digits.now ≤ most) (digits_value 10 digits.now) }
{
    let mut value: u64 = 0;
    for byte in digits {
        let digit = (*byte - b'0') as u64;
        if value > (most - digit) / 10 {
            return None;
        }
        value = value * 10 + digit;
    }
    Some(value)
}

/// Adds a number in decimal.
pub fn put_number(alloc: Global, out: &mut Vec<u8>, number: u64) -> Result<(), AllocError>
    ensures { OnOk result (out.new.items ≡ out.old.items ++ decimal number) }
{
    let digits = number.to_string(alloc)?;
    out.extend_from_slice(digits.as_bytes())
}
