//! The size of a thread's frames.

ghost use Rattle.std.specs.Prelude.{◌≡◌, ◌^◌, ◌-◌, min};
ghost use Rattle.m5_terms.specs.Size.{frames_size};

use crate::thread::FrameQueue;
use m5_terms::size::size_of_frame;

/// The number of the frames, of their nodes and of the bytes of their texts; `u64::MAX` where the
/// sum is larger.
pub(crate) fn size_of_frames(frames: &FrameQueue) -> u64
    ensures { result ≡ min (frames_size frames.now) (2 ^ 64 - 1) }
{
    let mut total: u64 = 0;
    for index in 0..frames.count() {
        total = total.saturating_add(size_of_frame(frames.at(index)));
    }
    total
}
