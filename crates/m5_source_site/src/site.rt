//! A site as data.

ghost use Rattle.std.specs.Prelude.{◌≡◌, ◌+◌, ◌-◌, ◌<◌, ◌^◌, false, [], ◌∷◌, ◌++◌, length, IfOk, OnOk, MatchOption, None, Some, slice_get, slice_set, ◌↔◌, IsTrue, true};
ghost use Rattle.m5_meaning.specs.Site.{Thread};
ghost use Rattle.m5_meaning.specs.Step.{stepped, is_full, begun};
ghost use Rattle.m5_source_site.specs.ClosedSite.{HasRoom};
ghost use Rattle.m5_source_site.specs.Waiting.{with_front};

use crate::measured::MeasuredProgram;
use crate::thread::SiteThread;
use m5_terms::node::Node;
use m5_terms::queue::Queue;
use std::alloc::{AllocError, Global};
use std::marker::Model;

/// How many threads, cells or handlers a site may have.
pub const MOST: u64 = 4096;

/// A site: its threads, the one that runs in front, the contents of its cells, its handlers, the
/// steps so far and what they weigh, and whether it has stopped.
#[derive(Drop)]
pub struct Site {
    held_threads: Queue<SiteThread>,
    held_cells: Vec<Node>,
    held_handlers: Vec<Node>,
    step_count: u64,
    weight_so_far: u64,
    is_stopped: bool,
}

impl Model for Site {
    ghost use Rattle.m5_meaning.specs.Site as meaning;
    ghost use Rattle.m5_source_site.specs.Codes.{site_code};

    ghost Value = { meaning.Site };

    ghost coded = { site_code };

    ghost view = { λ s. record { threads = s.held_threads; cells = s.held_cells.items; handlers = s.held_handlers.items; steps = s.step_count; weight = s.weight_so_far; stopped = s.is_stopped } };
}

/// The sum, where the size is the true one and the sum a number of 64 bits.
fn added_weight(weight: u64, size: u64) -> Result<u64, AllocError>
    ensures value { IfOk result (λ n. n ≡ weight + size) }
    ensures exact { IfOk result (λ n. size < 2 ^ 64 - 1) }
{
    if size == u64::MAX {
        return Err(AllocError);
    }
    weight.checked_add(size).ok_or(AllocError)
}

impl Site {
    /// A site before its first step, with these threads.
    pub fn opening(alloc: Global, threads: Queue<SiteThread>) -> Site
        ensures { result ≡ record { threads = threads; cells = []; handlers = []; steps = 0; weight = 0; stopped = false } }
    {
        Site {
            held_threads: threads,
            held_cells: Vec::new(alloc),
            held_handlers: Vec::new(alloc),
            step_count: 0,
            weight_so_far: 0,
            is_stopped: false,
        }
    }

    /// Whether it has no thread.
    pub fn is_idle(&self) -> bool
        ensures { IsTrue result ↔ (self.now.threads ≡ []) }
    {
        self.held_threads.count() == 0
    }

    /// The steps so far.
    pub fn steps(&self) -> u64
        ensures { result ≡ self.now.steps }
    {
        self.step_count
    }

    /// What the steps so far and the threads that began weigh.
    pub fn weight(&self) -> u64
        ensures { result ≡ self.now.weight }
    {
        self.weight_so_far
    }

    pub fn has_stopped(&self) -> bool
        ensures { result ≡ self.now.stopped }
    {
        self.is_stopped
    }

    /// Its threads, the one that runs in front.
    pub fn threads(&self) -> &Queue<SiteThread>
        ensures { result.now ≡ self.now.threads }
    {
        &self.held_threads
    }

    /// What its cells hold, in the order of their numbers.
    pub fn cells(&self) -> &[Node]
        ensures { result.now ≡ self.now.cells }
    {
        self.held_cells.as_slice()
    }

    /// Its handlers, in the order of their numbers.
    pub fn handlers(&self) -> &[Node]
        ensures { result.now ≡ self.now.handlers }
    {
        self.held_handlers.as_slice()
    }

    /// The site that goes on no more.
    pub fn stop(&mut self)
        ensures { self.new ≡ record self.old { stopped = true } }
    {
        self.is_stopped = true;
    }

    /// Takes off the thread that runs.
    pub(crate) fn take_front(&mut self) -> Option<SiteThread>
        ensures { MatchOption result ((self.old.threads ≡ []) × (self.new ≡ self.old)) (λ t. self.old ≡ with_front t self.new) }
    {
        self.held_threads.pop_front()
    }

    /// Puts a thread in front, to run next.
    pub(crate) fn put_front(&mut self, thread: SiteThread) -> Result<(), AllocError>
        ensures { OnOk result (self.new ≡ with_front thread self.old) }
    {
        self.held_threads.push_front(thread)
    }

    /// Puts a thread behind the others.
    pub(crate) fn put_back(&mut self, thread: SiteThread) -> Result<(), AllocError>
        ensures { OnOk result (self.new ≡ record self.old { threads = self.old.threads ++ thread ∷ [] }) }
    {
        self.held_threads.push_back(thread)
    }

    /// Puts a thread behind the others that begins, and adds what it weighs. Memory is wanting
    /// too where the sum is no number of 64 bits, since no memory holds such a thread.
    pub(crate) fn begin(&mut self, thread: SiteThread) -> Result<(), AllocError>
        ensures { OnOk result (self.new ≡ begun self.old (thread ∷ [])) }
    {
        let weight = added_weight(self.weight_so_far, thread.size())?;
        self.put_back(thread)?;
        self.weight_so_far = weight;
        Ok(())
    }

    /// Counts one step, which makes so many bytes of text.
    pub(crate) fn count_step(&mut self, program: &MeasuredProgram<'_>, made: u64)
        requires room { HasRoom self.old }
        requires made { made < 2 ^ 63 }
        ensures { self.new ≡ stepped program.now made self.old self.old.threads }
    {
        let weight = program.step_weight(made);
        self.step_count += 1;
        self.weight_so_far += weight;
    }

    /// Whether no thread could be added, were one more in front.
    pub(crate) fn lacks_place_beside_front(&self) -> bool
        ensures { (t : Thread) → result ≡ is_full (t ∷ self.now.threads) }
    {
        MOST - 1 <= self.held_threads.count()
    }

    pub(crate) fn lacks_cell_place(&self) -> bool
        ensures { result ≡ is_full self.now.cells }
    {
        MOST <= self.held_cells.len() as u64
    }

    pub(crate) fn lacks_handler_place(&self) -> bool
        ensures { result ≡ is_full self.now.handlers }
    {
        MOST <= self.held_handlers.len() as u64
    }

    /// Adds a cell with this content, and answers its number.
    pub(crate) fn add_cell(&mut self, content: Node) -> Result<u32, AllocError>
        requires { is_full self.old.cells ≡ false }
        ensures { IfOk result (λ n. (n ≡ length self.old.cells) × (self.new ≡ record self.old { cells = self.old.cells ++ content ∷ [] })) }
    {
        let number = self.held_cells.len() as u32;
        self.held_cells.push(content)?;
        Ok(number)
    }

    /// The content of the cell of this number, if there is one.
    pub(crate) fn cell(&self, number: u32) -> Option<&Node>
        ensures { MatchOption result (slice_get self.now.cells number ≡ None) (λ v. slice_get self.now.cells number ≡ Some v.now) }
    {
        self.held_cells.get(number as usize)
    }

    /// Puts a value into the cell of this number, if there is one.
    pub(crate) fn set_cell(&mut self, number: u32, content: Node)
        ensures { self.new ≡ record self.old { cells = slice_set self.old.cells number content } }
    {
        let index = number as usize;
        if index < self.held_cells.len() {
            self.held_cells[index] = content;
        }
    }

    /// Adds a handler, and answers its number.
    pub(crate) fn add_handler(&mut self, handler: Node) -> Result<u32, AllocError>
        requires { is_full self.old.handlers ≡ false }
        ensures { IfOk result (λ n. (n ≡ length self.old.handlers) × (self.new ≡ record self.old { handlers = self.old.handlers ++ handler ∷ [] })) }
    {
        let number = self.held_handlers.len() as u32;
        self.held_handlers.push(handler)?;
        Ok(number)
    }

    /// The handler of this number, if there is one.
    pub(crate) fn handler(&self, number: u32) -> Option<&Node>
        ensures { MatchOption result (slice_get self.now.handlers number ≡ None) (λ h. slice_get self.now.handlers number ≡ Some h.now) }
    {
        self.held_handlers.get(number as usize)
    }
}
