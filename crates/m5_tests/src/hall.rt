//! Numbers that several threads add to one list.
ghost use Rattle.std.specs.Prelude.{◌≡◌, ◌+◌, ◌<◌, ◌≤◌, ◌^◌, ◌∷◌, ◌++◌, [], All, IfOk, MatchBool};

use m5_hall::*;
use std::alloc::{AllocError, Global};
use std::snapshot::Snapshot;
use std::sync::Wait;
use std::test::Fail;
use std::thread;
use std::thread::{Promise, Threads};

#[derive(Drop)]
struct Numbers {
    items: Vec<u32>,
}

impl Kept for Numbers {
    type Entry = u32;

    type Origin = ();

    ghost origin = { λ n. tt };

    ghost history = { λ n. n.items.items };
}

impl Numbers {
    // Whether there was room for it.
    fn add(&mut self, number: u32) -> bool
        ensures { MatchBool result (self.new.items.items ≡ self.old.items.items ++ number ∷ []) (self.new.items.items ≡ self.old.items.items) }
    {
        self.items.push(number).is_ok()
    }
}

// The pass that comes back is of this hall.
#[derive(Drop)]
struct InHall(Snapshot<Hall<Numbers>>);

impl Promise<Pass<Numbers>> for InHall {
    ghost kept_by = { λ p r. r.hall ≡ p.0.value };
}

fn empty(alloc: Global) -> Numbers
    ensures { result.items.items ≡ [] }
{
    Numbers {
        items: Vec::new(alloc),
    }
}

fn add_once<R: Wait>(
    rt: &R,
    hall: &Hall<Numbers>,
    pass: Pass<Numbers>,
    number: u32,
) -> Pass<Numbers>
    requires hall { pass.hall ≡ hall.now }
    requires few { pass.enters < 2 ^ 40 }
    ensures hall { result.hall ≡ hall.now }
    ensures enters { result.enters ≡ pass.enters + 1 }
{
    let mut turn = hall.enter(rt, pass);
    let added = turn.value().add(number);
    hall.leave(turn, added)
}

fn add_often<R: Wait>(
    rt: &R,
    hall: &Hall<Numbers>,
    mut pass: Pass<Numbers>,
    number: u32,
    times: u32,
) -> Pass<Numbers>
    requires hall { pass.hall ≡ hall.now }
    requires few { pass.enters ≡ 0 }
    ensures { result.hall ≡ hall.now }
{
    for done in 0..times {
        pass = add_once(rt, hall, pass, number);
    }
    pass
}

// Two threads of one scope add their numbers.
fn add_both<R: Threads + Wait + Sync>(
    rt: &R,
    hall: &Hall<Numbers>,
    first: Pass<Numbers>,
    second: Pass<Numbers>,
    times: u32,
) -> Result<(Pass<Numbers>, Pass<Numbers>), AllocError>
    requires hall { (first.hall ≡ hall.now) × (second.hall ≡ hall.now) }
    requires enters { (first.enters ≡ 0) × (second.enters ≡ 0) }
    ensures { IfOk result (λ r. (r.0.hall ≡ hall.now) × (r.1.hall ≡ hall.now)) }
{
    thread::scope(
        thread::scope_env(),
        rt,
        |scope| -> Result<(Pass<Numbers>, Pass<Numbers>), AllocError>
            requires { (first.hall ≡ hall.now) × (second.hall ≡ hall.now) × (first.enters ≡ 0) × (second.enters ≡ 0) }
            ensures { IfOk result (λ r. (r.0.hall ≡ hall.entry.now) × (r.1.hall ≡ hall.entry.now)) }
        {
            let one = scope.spawn_with(InHall(Snapshot::of(hall)), move || {
                add_often(rt, hall, first, 1, times)
            })?;
            let two = scope.spawn_with(InHall(Snapshot::of(hall)), move || {
                add_often(rt, hall, second, 2, times)
            })?;
            Ok((one.join(rt), two.join(rt)))
        },
    )
}

#[test]
fn two_threads_add_a_thousand_each(rt: HostRuntime) -> Result<(), Fail> {
    let (hall, mut first) = Hall::make(rt.alloc(), empty(rt.alloc()))?;
    let second = hall.split(&mut first);
    let (mut first, second) = add_both(&rt, &hall, first, second, 1000)?;
    hall.join(&mut first, second);
    let (numbers, mine) = hall.close(first)?;
    assert_eq!(rt; numbers.items.len(), 2000);
    assert_eq!(rt; mine.count(), 2000);
    let ones = numbers.items.iter().filter(|n| **n == 1).count();
    assert_eq!(rt; ones, 1000);
    Ok(())
}

// Splits off so many passes.
fn split_off(
    alloc: Global,
    hall: &Hall<Numbers>,
    first: &mut Pass<Numbers>,
    count: u32,
) -> Result<Vec<Pass<Numbers>>, AllocError>
    requires hall { first.old.hall ≡ hall.now }
    requires left { count ≤ first.old.splits_left }
    ensures hall { first.new.hall ≡ hall.now }
    ensures passes { IfOk result (λ v. All (λ p. (p.hall ≡ hall.now) × (p.enters ≡ 0)) v.items) }
{
    let mut passes = Vec::new(alloc);
    for made in 0..count {
        passes.push(hall.split(first))?;
    }
    Ok(passes)
}

// Each pass adds its number in a thread of its own.
fn add_all<R: Threads + Wait + Sync>(
    rt: &R,
    hall: &Hall<Numbers>,
    passes: Vec<Pass<Numbers>>,
    times: u32,
) -> Result<Vec<Pass<Numbers>>, AllocError>
    requires { All (λ p. (p.hall ≡ hall.now) × (p.enters ≡ 0)) passes.items }
    ensures { IfOk result (λ v. All (λ p. p.hall ≡ hall.now) v.items) }
{
    thread::map_vec(rt, passes, &|pass| add_often(rt, hall, pass, 1, times))
}

// Joins all passes into one.
fn join_all(
    hall: &Hall<Numbers>,
    mut into: Pass<Numbers>,
    passes: Vec<Pass<Numbers>>,
) -> Pass<Numbers>
    requires hall { into.hall ≡ hall.now }
    requires passes { All (λ p. p.hall ≡ hall.now) passes.items }
    ensures { result.hall ≡ hall.now }
{
    for pass in passes {
        hall.join(&mut into, pass);
    }
    into
}

#[test]
fn sixteen_threads_add(rt: HostRuntime) -> Result<(), Fail> {
    let (hall, mut first) = Hall::make(rt.alloc(), empty(rt.alloc()))?;
    let passes = split_off(rt.alloc(), &hall, &mut first, 16)?;
    let passes = add_all(&rt, &hall, passes, 200)?;
    let last = join_all(&hall, first, passes);
    let (numbers, mine) = hall.close(last)?;
    assert_eq!(rt; numbers.items.len(), 3200);
    assert_eq!(rt; mine.count(), 3200);
    Ok(())
}
