//! The size of a thread.

ghost use Rattle.std.specs.Prelude.{◌≡◌, ◌+◌, ◌^◌, ◌-◌, min, length};
ghost use Rattle.m5_terms.specs.Opened.{viewed_leaf};
ghost use Rattle.m5_terms.specs.Size.{text_size, node_size, frame_size, focus_size, thread_size, frames_size};

use crate::node::Node;
use crate::opened::{LeafView, Opened};
use crate::thread::{Focus, Frame, Thread};

fn size_of_leaf(form: &LeafView<'_>) -> u64
    ensures { result ≡ min (1 + text_size (viewed_leaf form.now)) (2 ^ 64 - 1) }
{
    match form {
        LeafView::Str(text) => 1u64.saturating_add(text.bytes().len() as u64),
        _ => 1,
    }
}

/// The nodes of the term and the bytes of its texts; `u64::MAX` where the sum is larger. The parts know theirs.
pub fn size_of_node(node: &Node) -> u64
    ensures { result ≡ min (node_size node.now) (2 ^ 64 - 1) }
{
    match node.open_boxes() {
        Opened::Leaf(form) => size_of_leaf(&form),
        Opened::Unary(_, first) => 1u64.saturating_add(first.size()),
        Opened::Binary(_, first, second) => {
            1u64.saturating_add(first.size().saturating_add(second.size()))
        }
        Opened::Ternary(_, first, second, third) => {
            let others = second.size().saturating_add(third.size());
            1u64.saturating_add(first.size().saturating_add(others))
        }
    }
}

/// The frame itself and its nodes, with the bytes of their texts; `u64::MAX` where the sum is larger.
pub fn size_of_frame(frame: &Frame) -> u64
    ensures { result ≡ min (frame_size frame.now) (2 ^ 64 - 1) }
{
    match frame {
        Frame::Part { node, .. } => 1u64.saturating_add(size_of_node(node)),
        Frame::Return(_) => 1,
    }
}

/// The nodes of the focus and the bytes of their texts; `u64::MAX` where the sum is larger.
pub fn size_of_focus(focus: &Focus) -> u64
    ensures { result ≡ min (focus_size focus.now) (2 ^ 64 - 1) }
{
    match focus {
        Focus::Eval(_, node) | Focus::Returned(_, node) => size_of_node(node),
    }
}

fn size_of_frames(frames: &[Frame]) -> u64
    ensures { result ≡ min (frames_size frames.now) (2 ^ 64 - 1) }
{
    let mut total: u64 = 0;
    for frame in frames {
        total = total.saturating_add(size_of_frame(frame));
    }
    total
}

/// The number of the thread's frames, of its nodes in frames and focus, and of the bytes of its
/// texts, all added; `u64::MAX` where the sum is larger.
pub fn size_of(thread: &Thread) -> u64
    ensures { result ≡ min (thread_size thread.now) (2 ^ 64 - 1) }
{
    size_of_frames(thread.frames.as_slice()).saturating_add(size_of_focus(&thread.focus))
}
