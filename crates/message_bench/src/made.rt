//! Messages of the first format that are made.

use m5_terms::seal::Seal;
use std::alloc::{AllocError, Global};

fn put(out: &mut Vec<u8>, number: u32) -> Result<(), AllocError> {
    out.extend_from_slice(&number.to_be_bytes())?;
    Ok(())
}

/// A closure of label 3 over a list of so many numbers.
pub fn list(alloc: Global, seal: &Seal, count: u32) -> Result<Vec<u8>, AllocError> {
    let mut out = Vec::new(alloc);
    out.extend_from_slice(&seal.0)?;
    put(&mut out, count.wrapping_add(2))?;
    put(&mut out, 7)?;
    for _ in 0..count {
        put(&mut out, 7)?;
    }
    put(&mut out, 1)?;
    out.push(0)?;
    for item in 0..count {
        out.push(1)?;
        let number = (item as u64).wrapping_mul(0x0123_4567_89ab);
        out.extend_from_slice(&number.to_be_bytes())?;
        put(&mut out, item)?;
    }
    out.extend_from_slice(&[0, 3])?;
    put(&mut out, count)?;
    put(&mut out, count.wrapping_add(1))?;
    Ok(out)
}

/// A closure of label 0 over a text of so many bytes, twice.
pub fn text(alloc: Global, seal: &Seal, count: u32) -> Result<Vec<u8>, AllocError> {
    let mut out = Vec::new(alloc);
    out.extend_from_slice(&seal.0)?;
    put(&mut out, 2)?;
    put(&mut out, 4)?;
    put(&mut out, 1)?;
    put(&mut out, count)?;
    for place in 0..count {
        out.push(97 + (place % 26) as u8)?;
    }
    out.extend_from_slice(&[0, 0])?;
    put(&mut out, 0)?;
    put(&mut out, 0)?;
    put(&mut out, 1)?;
    Ok(out)
}
