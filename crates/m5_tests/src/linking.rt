//! Steps that are blocks, and steps that are not.

use m5_machine::link::link;
use m5_machine::step::Step;
use std::test::*;

#[test]
fn links_steps_that_are_blocks(rt: HostRuntime) -> Result<(), Fail> {
    let mut starts = Vec::new(rt.alloc());
    starts.push(0)?;
    let mut steps = Vec::new(rt.alloc());
    steps.push(Step::If(1, 0))?;
    steps.push(Step::Done)?;
    steps.push(Step::Go(0, 1))?;
    let blocks = link(rt.alloc(), starts, steps)?;
    assert!(rt; blocks.is_some());
    Ok(())
}

#[test]
fn links_no_block_without_its_second_body(rt: HostRuntime) -> Result<(), Fail> {
    let starts = Vec::new(rt.alloc());
    let mut steps = Vec::new(rt.alloc());
    steps.push(Step::If(1, 0))?;
    steps.push(Step::Done)?;
    let blocks = link(rt.alloc(), starts, steps)?;
    assert!(rt; blocks.is_none());
    Ok(())
}

/// A block whose endings nest this deep.
fn nested(rt: &HostRuntime, depth: usize) -> Result<bool, Fail> {
    let mut starts = Vec::new(rt.alloc());
    starts.push(0)?;
    let mut steps = Vec::new(rt.alloc());
    for _ in 1..depth {
        steps.push(Step::If(1, 0))?;
        steps.push(Step::Done)?;
    }
    steps.push(Step::Done)?;
    let blocks = link(rt.alloc(), starts, steps)?;
    Ok(blocks.is_some())
}

#[test]
fn endings_nest_at_most_a_thousand_deep(rt: HostRuntime) -> Result<(), Fail> {
    assert!(rt; nested(&rt, 1000)?);
    assert!(rt; !nested(&rt, 1001)?);
    Ok(())
}
