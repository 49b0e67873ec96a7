//! Blocks as the conversion writes them.

use crate::steps::{parts, show_ending, show_straight, show_test};
use crate::types::{filled, show_entry, show_types};
use m5_cps::cps::Cps;
use m5_cps::entry::{Argument, Entry, Mode};
use m5_cps::step::Step;
use m5_terms::types::World;
use std::io;

/// Code that is still to be shown: where it begins, how many slots are filled there, and how deep it stands.
#[derive(Clone, Copy)]
struct Rest {
    place: usize,
    slots: u32,
    depth: u32,
}

/// A closure's block that is still to be shown, over so many slots.
#[derive(Clone, Copy)]
struct Block {
    place: usize,
    slots: u32,
    entry: Entry,
}

fn indent(rt: &HostRuntime, depth: u32) -> io::Result<()> {
    for _ in 0..depth {
        print!(rt; "  ")?;
    }
    Ok(())
}

/// One step, and the code that follows it: what is to be shown next stands last.
fn show_step(
    rt: &HostRuntime,
    step: &Step,
    at: Rest,
    rest: &mut Vec<Rest>,
    blocks: &mut Vec<Block>,
) -> io::Result<()> {
    let Rest {
        place,
        slots,
        depth,
    } = at;
    indent(rt, depth)?;
    let behind = place.saturating_add(1);
    let more = slots.saturating_add(1);
    match step {
        Step::Straight(form) => {
            print!(rt; "s{slots} = ")?;
            show_straight(rt, form)?;
            rest.push(Rest {
                place: behind,
                slots: more,
                depth,
            })?;
        }
        Step::Closure { entry, block, next } => {
            println!(rt; "s{slots} = closure of block {block}")?;
            blocks.push(Block {
                place: *block,
                slots,
                entry: *entry,
            })?;
            rest.push(Rest {
                place: *next,
                slots: more,
                depth,
            })?;
        }
        Step::Test { test, slot, second } => {
            show_test(rt, *test, *slot)?;
            let (then, otherwise) = parts(*test);
            let deeper = depth.saturating_add(1);
            rest.push(Rest {
                place: *second,
                slots: slots.saturating_add(otherwise),
                depth,
            })?;
            rest.push(Rest {
                place: behind,
                slots: slots.saturating_add(then),
                depth: deeper,
            })?;
        }
        Step::Ends(ending) => show_ending(rt, *ending)?,
    }
    Ok(())
}

/// A block: how it is entered, and its steps, those where a test holds deeper than those where it does not.
fn show_block(
    rt: &HostRuntime,
    cps: &Cps,
    block: Block,
    blocks: &mut Vec<Block>,
) -> io::Result<()> {
    print!(rt; "block {}: ", block.place)?;
    show_entry(rt, block.entry)?;
    println!(rt; ", over {} slots", block.slots)?;
    let mut rest: Vec<Rest> = Vec::new(rt.alloc());
    let slots = block.slots.saturating_add(filled(block.entry));
    rest.push(Rest {
        place: block.place,
        slots,
        depth: 1,
    })?;
    for _ in 0..cps.count() {
        let Some(at) = rest.pop() else {
            break;
        };
        if let Some(step) = cps.steps().get(at.place) {
            show_step(rt, step, at, &mut rest, blocks)?;
        }
    }
    Ok(())
}

/// The types of a program of blocks, main's block, those of the functions, and each closure's.
pub fn show_blocks(rt: &HostRuntime, cps: &Cps) -> io::Result<()> {
    show_types(rt, cps.types())?;
    let mut blocks: Vec<Block> = Vec::new(rt.alloc());
    let unit = cps.types().unit();
    let main = Entry::ByValue(Mode::Only(World::Home), Argument::Value(unit));
    show_block(
        rt,
        cps,
        Block {
            place: cps.main(),
            slots: 0,
            entry: main,
        },
        &mut blocks,
    )?;
    for start in cps.functions() {
        let block = Block {
            place: start.place,
            slots: 0,
            entry: start.entry,
        };
        show_block(rt, cps, block, &mut blocks)?;
    }
    for _ in 0..cps.count() {
        let Some(block) = blocks.pop() else {
            break;
        };
        show_block(rt, cps, block, &mut blocks)?;
    }
    Ok(())
}
