//! What came of a message, in words.

use m5_marshal::UnpackEnd;
use m5_region::value::Value;
use m5_terms::decimal::put_number;
use std::alloc::{AllocError, Global};

const DIGITS: [u8; 16] = *b"0123456789abcdef";

/// Two hexadecimal digits for each byte, or a line where there are none.
pub fn put_hex(out: &mut Vec<u8>, bytes: &[u8]) -> Result<(), AllocError> {
    if bytes.is_empty() {
        out.push(b'-')?;
    }
    for byte in bytes {
        out.push(DIGITS[(*byte / 16) as usize])?;
        out.push(DIGITS[(*byte % 16) as usize])?;
    }
    Ok(())
}

/// A value by its kind, and its number as the region has it.
pub fn put_value(alloc: Global, out: &mut Vec<u8>, value: Value) -> Result<(), AllocError> {
    match value {
        Value::Null => out.extend_from_slice(b"null")?,
        Value::Bool(false) => out.extend_from_slice(b"false")?,
        Value::Bool(true) => out.extend_from_slice(b"true")?,
        Value::Int(number) => {
            out.push(b'i')?;
            put_number(alloc, out, number.cast_unsigned())?;
        }
        Value::Text(at) => {
            out.push(b't')?;
            put_number(alloc, out, at.0 as u64)?;
        }
        Value::Array(at) => {
            out.push(b'a')?;
            put_number(alloc, out, at.0 as u64)?;
        }
    }
    Ok(())
}

/// Why bytes were refused.
pub fn put_end(alloc: Global, out: &mut Vec<u8>, end: UnpackEnd) -> Result<(), AllocError> {
    match end {
        UnpackEnd::Unsealed => out.extend_from_slice(b"unsealed")?,
        UnpackEnd::Full => out.extend_from_slice(b"full")?,
        UnpackEnd::Outside(offset) => {
            out.extend_from_slice(b"outside ")?;
            put_number(alloc, out, offset)?;
        }
    }
    Ok(())
}
