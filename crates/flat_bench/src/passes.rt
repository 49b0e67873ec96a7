//! The passes over a program of chains, one after the other.

ghost use Rattle.std.specs.Prelude.{◌≤◌};

use crate::chains;
use m5_dict::dictionaries::dictionaries;
use m5_dictionary::dicts::Dicts;
use m5_flat::program::Flat;
use m5_hoist::hoist::hoist;
use m5_slice::slices::{Slices, slice};
use std::io;

/// How many blocks of a slice stand at its world: those of other labels begin at its last step.
fn standing(flat: &Flat) -> usize {
    let end = flat.table().count().saturating_sub(1);
    let mut blocks: usize = 0;
    for label in flat.table().labels() {
        if label.place != end {
            blocks = blocks.saturating_add(1);
        }
    }
    blocks
}

/// Writes how many type lines, labels and blocks there are.
pub fn write(rt: &HostRuntime, dicts: &Dicts, slices: &Slices) -> io::Result<()> {
    let labels = dicts.labels().len();
    let lines = dicts.types().len();
    let home = standing(&slices.home);
    let server = standing(&slices.server);
    let panel = standing(&slices.panel);
    println!(rt;
        "{labels} labels: {lines} type lines, blocks at home {home}, server {server}, panel {panel}"
    )
}

/// Writes what comes of a program of so many labels.
pub fn show(rt: &HostRuntime, labels: usize) -> io::Result<()>
    requires { 8 ≤ labels }
{
    let closed = chains::closed(rt.alloc(), labels)?;
    let Ok(flat) = hoist(rt.alloc(), &closed) else {
        return println!(rt; "{labels} labels: not hoisted");
    };
    let Ok(dicts) = dictionaries(rt.alloc(), &flat) else {
        return println!(rt; "{labels} labels: no dictionaries");
    };
    let slices = slice(rt.alloc(), &flat, &dicts)?;
    write(rt, &dicts, &slices)
}
