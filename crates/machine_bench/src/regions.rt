//! Regions made and filled.

use m5_region::region::Region;
use m5_region::value::Value;
use std::alloc::Global;

/// How many regions of the largest size were made, of 96 that stand at once.
pub fn make_largest(alloc: Global) -> usize {
    let mut regions = Vec::new(alloc);
    for _ in 0..96 {
        if let Ok(region) = Region::make(alloc, 1_048_640) {
            if regions.push(region).is_err() {
                return 0;
            }
        }
    }
    regions.len()
}

/// How many arrays of three fields were added, two of which are read each time; the region begins
/// again where it is full.
pub fn add_and_read(alloc: Global, turns: u32) -> u32 {
    let Ok(mut region) = Region::make(alloc, 1_048_640) else {
        return 0;
    };
    let mut added: u32 = 0;
    for turn in 0..turns {
        let fields = [Value::Int(turn as i64), Value::Bool(true), Value::Null];
        match region.add(&fields) {
            Some(at) => {
                if region.field(at, 0) == Value::Int(turn as i64)
                    && region.field(at, 1) == Value::Bool(true)
                {
                    added = added.wrapping_add(1);
                }
            }
            None => region.cut(0),
        }
    }
    added
}
