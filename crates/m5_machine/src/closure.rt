//! Closures: arrays whose first field is the number of a label that has a block.

ghost use Rattle.std.specs.Prelude.{◌≡◌, IfSome};
ghost use Rattle.m5_region.specs.Region.{Refers};
ghost use Rattle.m5_machine.specs.Blocks.{BeginsBlock, start_of};
ghost use Rattle.m5_machine.specs.Closure.{entry, label_in, entry_at};

use crate::blocks::Blocks;
use m5_region::region::Region;
use m5_region::value::Value;

/// The block that a closure enters: its label, and where it begins.
#[derive(Clone, Copy, PartialEq, Eq, Debug)]
pub struct Target {
    pub label: u16,
    pub start: u32,
}

/// A number as a label.
fn label_in(number: i64) -> Option<u16>
    ensures { result ≡ label_in number }
{
    if number < 0 {
        return None;
    }
    if number > 65535 {
        return None;
    }
    Some(number as u16)
}

/// The block of a label.
fn entry_at(code: &Blocks, label: u16) -> Option<Target>
    ensures entry { result ≡ entry_at label (start_of code.now label) }
    ensures begins { IfSome result (λ e. BeginsBlock code.now e.start) }
{
    let start = code.start(label)?;
    Some(Target { label, start })
}

/// The block that a closure enters, if the value is one.
pub fn entry(code: &Blocks, region: &Region, closure: Value) -> Option<Target>
    requires { Refers region.now.objects closure }
    ensures entry { result ≡ entry code.now region.now.objects closure }
    ensures begins { IfSome result (λ e. BeginsBlock code.now e.start) }
{
    let Value::Array(at) = closure else {
        return None;
    };
    if region.fields(at) == 0 {
        return None;
    }
    let Value::Int(label) = region.field(at, 0) else {
        return None;
    };
    let label = label_in(label)?;
    entry_at(code, label)
}
