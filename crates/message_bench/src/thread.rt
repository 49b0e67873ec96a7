//! Threads packed.

ghost use Rattle.m5_region.specs.Region.{Refers};

use m5_dictionary::dicts::Dicts;
use m5_marshal::{has_bytes, pack};
use m5_region::queue::Ready;
use m5_region::region::Region;
use m5_terms::seal::Seal;
use m5_terms::text::Text;
use std::io;
use std::time::Instant;

/// A thread's bytes, where it has any, and the nanoseconds that the test and the packing took.
pub fn packed(
    rt: &HostRuntime,
    region: &Region,
    dicts: &Dicts,
    seal: &Seal,
    thread: &Ready,
) -> io::Result<Option<(Text, u128, u128)>>
    requires code { Refers region.now.objects thread.now.code }
    requires argument { Refers region.now.objects thread.now.argument }
{
    let start = Instant::now(rt)?;
    let has = has_bytes(rt.alloc(), region, dicts, thread)?;
    let test = start.elapsed(rt)?.as_nanos();
    if !has {
        return Ok(None);
    }
    let start = Instant::now(rt)?;
    let text = pack(rt.alloc(), region, dicts, seal, thread)?;
    let time = start.elapsed(rt)?.as_nanos();
    Ok(Some((text, test, time)))
}
