//! Quoted texts, and bytes in hexadecimal.

ghost use Rattle.std.specs.Prelude.{◌≡◌, ◌≤◌, ◌<◌, [], ◌∷◌, ◌++◌, length, drop, IfSome, IfOk, IfErr, OnOk, Some};
ghost use Rattle.m5_terms.specs.Text.{IsText};
ghost use Rattle.m5_script.specs.Fields.{Refuses};
ghost use Rattle.m5_script.specs.Quoted.{is_parted, nibble, text_inside, bytes_from};

use crate::fields::is_blank_byte;
use crate::form::LineEnd;
use m5_terms::quoted::{Quoted, read_quoted};
use m5_terms::text::Text;
use std::alloc::{AllocError, Global};

/// True at the end and where a blank follows.
pub fn parted(bytes: &[u8]) -> bool
    ensures { result ≡ is_parted bytes.now }
{
    match bytes {
        [] => true,
        [byte, ..] => is_blank_byte(*byte),
    }
}

fn put(bytes: &mut Vec<u8>, byte: u8) -> Result<(), AllocError>
    ensures { OnOk result (bytes.new.items ≡ bytes.old.items ++ byte ∷ []) }
{
    bytes.push(byte)?;
    Ok(())
}

/// The text after an opening quote, and how many bytes it takes with the closing quote.
pub fn quoted(alloc: Global, bytes: &[u8]) -> Result<(Text, usize), LineEnd>
    ensures ok { IfOk result (λ t. text_inside bytes.now ≡ Some (t.0, drop t.1 bytes.now)) }
    ensures within { IfOk result (λ t. t.1 ≤ length bytes.now) }
    ensures text { IfOk result (λ t. IsText t.0) }
    ensures err { IfErr result (λ e. Refuses e (text_inside bytes.now)) }
{
    match read_quoted(alloc, bytes)? {
        Quoted::Closed(text, length) => Ok((text, length)),
        Quoted::Broken(_) => Err(LineEnd::Syntax),
    }
}

/// The value of a hexadecimal digit.
fn digit(byte: u8) -> Option<u8>
    ensures value { result ≡ nibble byte }
    ensures small { IfSome result (λ n. n < 16) }
{
    match byte {
        b'0'..=b'9' => Some(byte - b'0'),
        b'A'..=b'F' => Some(byte - b'A' + 10),
        b'a'..=b'f' => Some(byte - b'a' + 10),
        _ => None,
    }
}

/// The bytes that pairs of hexadecimal digits spell.
#[tactic(auto, using(crate::proofs::Texts::bytes_on, crate::proofs::Texts::bytes_high, crate::proofs::Texts::bytes_low, crate::proofs::Texts::bytes_odd, crate::proofs::Texts::bytes_even))]
pub fn hexadecimal(alloc: Global, digits: &[u8]) -> Result<Text, LineEnd>
    ensures ok { IfOk result (λ t. bytes_from [] digits.now ≡ Some t) }
    ensures err { IfErr result (λ e. Refuses e (bytes_from [] digits.now)) }
{
    let mut item = Vec::new(alloc);
    let mut at = 0;
    while at + 1 < digits.len() {
        let Some(high) = digit(digits[at]) else {
            return Err(LineEnd::Syntax);
        };
        let Some(low) = digit(digits[at + 1]) else {
            return Err(LineEnd::Syntax);
        };
        put(&mut item, high * 16 + low)?;
        at += 2;
    }
    if at < digits.len() {
        return Err(LineEnd::Syntax);
    }
    Ok(Text::of(alloc, &item)?)
}
