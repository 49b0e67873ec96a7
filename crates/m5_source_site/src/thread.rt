//! Threads, whose top frame can be taken off.

ghost use Rattle.std.specs.Prelude.{◌≡◌, ◌^◌, ◌-◌, min};
ghost use Rattle.m5_meaning.specs.Site.{thread_size};

use crate::size::size_of_frames;
use m5_terms::queue::Queue;
use m5_terms::size::size_of_focus;
use m5_terms::thread::{Focus, Frame};
use std::marker::Model;

/// What waits for a value, the top frame first.
pub type FrameQueue = Queue<Frame>;

/// A thread of a site.
#[derive(Drop)]
pub struct SiteThread {
    held_frames: FrameQueue,
    held_focus: Focus,
}

impl Model for SiteThread {
    ghost use Rattle.m5_meaning.specs.Site.{Thread};
    ghost use Rattle.m5_source_site.specs.Codes.{thread_code};

    ghost Value = { Thread };

    ghost coded = { thread_code };

    ghost view = { λ t. record { frames = t.held_frames; focus = t.held_focus } };
}

impl SiteThread {
    pub fn new(frames: FrameQueue, focus: Focus) -> SiteThread
        ensures { result ≡ record { frames = frames; focus = focus } }
    {
        SiteThread {
            held_frames: frames,
            held_focus: focus,
        }
    }

    /// What waits for a value, the top frame first.
    pub fn frames(&self) -> &FrameQueue
        ensures { result.now ≡ self.now.frames }
    {
        &self.held_frames
    }

    /// What it looks at.
    pub fn focus(&self) -> &Focus
        ensures { result.now ≡ self.now.focus }
    {
        &self.held_focus
    }

    /// The number of its frames, of its nodes and of the bytes of its texts; `u64::MAX` where the
    /// sum is larger.
    pub fn size(&self) -> u64
        ensures { result ≡ min (thread_size self.now) (2 ^ 64 - 1) }
    {
        size_of_frames(&self.held_frames).saturating_add(size_of_focus(&self.held_focus))
    }

    /// Its frames and what it looks at.
    pub fn into_parts(self) -> (FrameQueue, Focus)
        ensures { record { frames = result.0; focus = result.1 } ≡ self }
    {
        let SiteThread {
            held_frames,
            held_focus,
        } = self;
        (held_frames, held_focus)
    }
}
