//! Whether the terms of a site are within the budget of depth.

ghost use Rattle.std.specs.Prelude.{◌≡◌, IsTrue};
ghost use Rattle.std.specs.List.{list_all};
ghost use Rattle.m5_terms.specs.Machine.{goes};
ghost use Rattle.m5_terms.specs.declared.types.World.{World};
ghost use Rattle.m5_meaning.specs.Site.{Program, Site as SiteOf};
ghost use Rattle.m5_meaning.specs.Step.{site_next};
ghost use Rattle.m5_replay.specs.Depth.{is_shallow, is_shallow_frame, is_shallow_focus, is_shallow_thread, is_shallow_site};
ghost use Rattle.m5_replay.specs.code.Front.{is_shallow_top, is_shallow_front};

use m5_source_site::site::Site;
use m5_source_site::thread::SiteThread;
use m5_terms::depth::depth_of_node;
use m5_terms::node::Node;
use m5_terms::thread::{Focus, Frame};

/// The most nodes that may stand inside one another.
const MOST_DEPTH: u64 = 4096;

fn is_shallow(node: &Node) -> bool
    ensures { result ≡ is_shallow node.now }
{
    depth_of_node(node) <= MOST_DEPTH
}

fn is_shallow_frame(frame: &Frame) -> bool
    ensures { result ≡ is_shallow_frame frame.now }
{
    match frame {
        Frame::Part { node, .. } => is_shallow(node),
        Frame::Return(_) => true,
    }
}

fn is_shallow_focus(focus: &Focus) -> bool
    ensures { result ≡ is_shallow_focus focus.now }
{
    match focus {
        Focus::Eval(_, node) | Focus::Returned(_, node) => is_shallow(node),
    }
}

fn are_shallow_frames(thread: &SiteThread) -> bool
    ensures { result ≡ list_all is_shallow_frame thread.now.frames }
{
    let frames = thread.frames();
    for index in 0..frames.count() {
        if !is_shallow_frame(frames.at(index)) {
            return false;
        }
    }
    true
}

fn is_shallow_thread(thread: &SiteThread) -> bool
    ensures { result ≡ is_shallow_thread thread.now }
{
    are_shallow_frames(thread) && is_shallow_focus(thread.focus())
}

fn are_shallow_threads(site: &Site) -> bool
    ensures { result ≡ list_all is_shallow_thread site.now.threads }
{
    let threads = site.threads();
    for index in 0..threads.count() {
        if !is_shallow_thread(threads.at(index)) {
            return false;
        }
    }
    true
}

fn are_shallow(nodes: &[Node]) -> bool
    ensures { result ≡ list_all is_shallow nodes.now }
{
    nodes.iter().all(|node| is_shallow(node))
}

/// Whether no frame, focus, cell or handler of the site is deeper than 4,096 nodes.
pub fn is_shallow_site(site: &Site) -> bool
    ensures { result ≡ is_shallow_site site.now }
{
    are_shallow_threads(site) && (are_shallow(site.cells()) && are_shallow(site.handlers()))
}

fn is_shallow_top(thread: &SiteThread) -> bool
    ensures { result ≡ is_shallow_top thread.now.frames }
{
    match thread.frames().front() {
        Some(frame) => is_shallow_frame(frame),
        None => true,
    }
}

fn is_shallow_front(site: &Site) -> bool
    ensures { result ≡ is_shallow_front site.now.threads }
{
    match site.threads().front() {
        Some(thread) => is_shallow_top(thread) && is_shallow_focus(thread.focus()),
        None => true,
    }
}

/// Whether a site that was within the budget of depth before its last local step still is. What the step put elsewhere than
/// into the top frame and the focus of the thread that runs was part of a term before, so these two tell it.
pub fn stays_shallow(site: &Site) -> bool
    ensures { (P : Program) (w : World) (before : SiteOf) → site_next P w before ≡ goes site.now → IsTrue (is_shallow_site before) → result ≡ is_shallow_site site.now }
{
    is_shallow_front(site)
}
