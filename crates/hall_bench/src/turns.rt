//! The loops that are timed.
ghost use Rattle.std.specs.Prelude.{◌≡◌, ◌+◌, ◌<◌, ◌≤◌, ◌^◌, ◌∷◌, ◌++◌, [], All, IfOk, MatchBool};

use m5_hall::{Hall, Kept, Pass};
use std::alloc::{AllocError, Global};
use std::sync::{Mutex, Wait};
use std::thread;
use std::thread::Threads;

/// A list of numbers, whose entries are its items.
#[derive(Drop)]
struct Numbers {
    items: Vec<u32>,
}

impl Kept for Numbers {
    type Entry = u32;

    type Origin = ();

    ghost origin = { λ n. tt };

    ghost history = { λ n. n.items.items };
}

impl Numbers {
    fn new(alloc: Global) -> Numbers
        ensures { result.items.items ≡ [] }
    {
        Numbers {
            items: Vec::new(alloc),
        }
    }

    // Whether there was room for it.
    fn add(&mut self, number: u32) -> bool
        ensures { MatchBool result (self.new.items.items ≡ self.old.items.items ++ number ∷ []) (self.new.items.items ≡ self.old.items.items) }
    {
        self.items.push(number).is_ok()
    }
}

// One turn through the hall.
fn turn<R: Wait>(rt: &R, hall: &Hall<Numbers>, pass: Pass<Numbers>, number: u32) -> Pass<Numbers>
    requires hall { pass.hall ≡ hall.now }
    requires few { pass.enters < 2 ^ 40 }
    ensures hall { result.hall ≡ hall.now }
    ensures enters { result.enters ≡ pass.enters + 1 }
{
    let mut turn = hall.enter(rt, pass);
    let added = turn.value().add(number);
    hall.leave(turn, added)
}

fn turns_of<R: Wait>(
    rt: &R,
    hall: &Hall<Numbers>,
    mut pass: Pass<Numbers>,
    turns: u32,
) -> Pass<Numbers>
    requires hall { pass.hall ≡ hall.now }
    requires few { pass.enters ≡ 0 }
    ensures { result.hall ≡ hall.now }
{
    for done in 0..turns {
        pass = turn(rt, hall, pass, done);
    }
    pass
}

fn split_off(
    alloc: Global,
    hall: &Hall<Numbers>,
    first: &mut Pass<Numbers>,
    count: u32,
) -> Result<Vec<Pass<Numbers>>, AllocError>
    requires hall { first.old.hall ≡ hall.now }
    requires left { count ≤ first.old.splits_left }
    ensures hall { first.new.hall ≡ hall.now }
    ensures passes { IfOk result (λ v. All (λ p. (p.hall ≡ hall.now) × (p.enters ≡ 0)) v.items) }
{
    let mut passes = Vec::new(alloc);
    for made in 0..count {
        passes.push(hall.split(first))?;
    }
    Ok(passes)
}

fn take_turns<R: Threads + Wait + Sync>(
    rt: &R,
    hall: &Hall<Numbers>,
    passes: Vec<Pass<Numbers>>,
    turns: u32,
) -> Result<Vec<Pass<Numbers>>, AllocError>
    requires { All (λ p. (p.hall ≡ hall.now) × (p.enters ≡ 0)) passes.items }
    ensures { IfOk result (λ v. All (λ p. p.hall ≡ hall.now) v.items) }
{
    thread::map_vec(rt, passes, &|pass| turns_of(rt, hall, pass, turns))
}

fn join_all(
    hall: &Hall<Numbers>,
    mut into: Pass<Numbers>,
    passes: Vec<Pass<Numbers>>,
) -> Pass<Numbers>
    requires hall { into.hall ≡ hall.now }
    requires passes { All (λ p. p.hall ≡ hall.now) passes.items }
    ensures { result.hall ≡ hall.now }
{
    for pass in passes {
        hall.join(&mut into, pass);
    }
    into
}

/// How many numbers so many threads added through a hall, in so many turns each.
pub(crate) fn through_hall<R: Threads + Wait + Sync>(
    rt: &R,
    alloc: Global,
    threads: u32,
    turns: u32,
) -> Result<u64, AllocError>
    requires { threads < 1000 }
{
    let (hall, mut first) = Hall::make(alloc, Numbers::new(alloc))?;
    let passes = split_off(alloc, &hall, &mut first, threads)?;
    let passes = take_turns(rt, &hall, passes, turns)?;
    let last = join_all(&hall, first, passes);
    match hall.close(last) {
        Ok((_, mine)) => Ok(mine.count()),
        Err(_) => Ok(0),
    }
}

/// How many numbers so many threads added under a lock, in so many turns each.
pub(crate) fn under_lock<R: Threads + Wait + Sync>(
    rt: &R,
    alloc: Global,
    threads: u32,
    turns: u32,
) -> Result<u64, AllocError> {
    let lock = Mutex::new(Numbers::new(alloc));
    thread::map_indices(
        rt,
        alloc,
        threads as usize,
        &|_| {
            for done in 0..turns {
                lock.lock(rt).add(done);
            }
        },
    )?;
    Ok(lock.into_inner().items.len() as u64)
}
