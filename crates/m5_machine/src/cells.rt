//! What the instructions do to cells and threads.

ghost use Rattle.std.specs.Prelude.{◌≡◌, length, slice_get, All, IfSome, MatchOption, Some, None};
ghost use Rattle.m5_region.specs.Region.{Refers};
ghost use Rattle.m5_machine.specs.Table.{new_cell, place_in, loaded, set_cell, new_thread, cell_place};

use crate::blocks::Blocks;
use crate::closure::entry;
use crate::made::Made;
use crate::operand::int_in;
use m5_region::cells::Cells;
use m5_region::limits::MOST_ITEMS;
use m5_region::queue::{Queue, Ready};
use m5_region::region::Region;
use m5_region::slots::Slots;
use m5_region::value::Value;

/// A new cell, which holds the value of a slot.
pub(crate) fn new_cell(cells: &mut Cells, slots: &Slots, slot: u16) -> Made
    ensures { new_cell cells.old (slice_get slots.now slot) ≡ (result, cells.new) }
{
    let Some(value) = slots.get(slot as u32) else {
        return Made::NoCase;
    };
    let place = cells.len();
    if cells.push(value) {
        return Made::Gives(Value::Int(place as i64));
    }
    Made::NoTable
}

/// A number as the place of a cell that is there.
fn cell_place(cells: &Cells, number: i64) -> Option<u32>
    ensures { result ≡ cell_place cells.now number }
{
    if number < 0 {
        return None;
    }
    if number >= cells.len() as i64 {
        return None;
    }
    Some(number as u32)
}

/// The place that a slot's number names.
fn place_in(cells: &Cells, slots: &Slots, slot: u16) -> Option<u32>
    ensures { result ≡ place_in cells.now slots.now slot }
{
    let number = int_in(slots, slot)?;
    cell_place(cells, number)
}

/// What the cell holds that a slot's number names.
pub(crate) fn load(cells: &Cells, slots: &Slots, slot: u16) -> Option<Value>
    ensures { result ≡ loaded cells.now slots.now slot }
{
    let place = place_in(cells, slots, slot)?;
    cells.get(place)
}

/// Sets the cell that a slot's number names to the value of another slot.
pub(crate) fn set_cell(cells: &mut Cells, slots: &Slots, slot: u16, value: u16) -> Made
    ensures { set_cell cells.old (place_in cells.old slots.now slot) (slice_get slots.now value)
        ≡ (result, cells.new) }
{
    let Some(place) = place_in(cells, slots, slot) else {
        return Made::NoCase;
    };
    let Some(value) = slots.get(value as u32) else {
        return Made::NoCase;
    };
    let _ = cells.set(place, value);
    Made::Gives(Value::Null)
}

/// A thread more, which enters the closure of a slot with null. The thread that runs takes a place too.
pub(crate) fn new_thread(
    code: &Blocks,
    region: &Region,
    threads: &mut Queue,
    slots: &Slots,
    slot: u16,
) -> Made
    requires { All (Refers region.now.objects) slots.now }
    ensures { new_thread code.now region.now.objects threads.old (slice_get slots.now slot)
        ≡ (result, threads.new) }
{
    let Some(closure) = slots.get(slot as u32) else {
        return Made::NoCase;
    };
    if entry(code, region, closure).is_none() {
        return Made::NoCase;
    }
    let thread = Ready {
        code: closure,
        argument: Value::Null,
    };
    if threads.len() as usize + 1 >= MOST_ITEMS {
        return Made::NoTable;
    }
    let _ = threads.push(thread);
    Made::Gives(Value::Null)
}
