//! What is added to a site: objects and threads. The first that does not fit says for which cause
//! the site is to stop.

ghost use Rattle.std.specs.Prelude.{◌≡◌, ◌<◌, ◌^◌, length, All, IfSome};
ghost use Rattle.m5_machine.specs.Blocks.{Flat};
ghost use Rattle.m5_machine.specs.Closure.{CanRun};
ghost use Rattle.m5_region.specs.declared.value.Value.TheVariants.{Text, Array};
ghost use Rattle.m5_region.specs.Region.{ArrayOf, TextOf, Refers};
ghost use Rattle.m5_site.specs.Making.{enters, begins};
ghost use Rattle.m5_site.specs.code.Sound.{Grows, Makes, IsSoundState};

use crate::state::State;
use m5_region::queue::Ready;
use m5_region::value::Value;
use m5_terms::ask::Cause;

/// A new text of these bytes, if it fits.
pub(crate) fn new_text(state: &mut State, bytes: &[u8]) -> Option<Value>
    ensures makes { Makes state.old (TextOf bytes.now) Text result state.new }
    ensures grows { Grows state.old state.new }
    ensures refers { IfSome result (Refers state.new.bench.region.objects) }
{
    match state.bench.region.add_text(bytes) {
        Some(at) => Some(Value::Text(at)),
        None => {
            state.due = Some(Cause::Region);
            None
        }
    }
}

/// A new array of these values, if it fits.
pub(crate) fn new_array(state: &mut State, fields: &[Value]) -> Option<Value>
    requires count { (0 < length fields.now) × (length fields.now < 2 ^ 16) }
    requires refer { All (Refers state.old.bench.region.objects) fields.now }
    ensures makes { Makes state.old (ArrayOf fields.now) Array result state.new }
    ensures grows { Grows state.old state.new }
    ensures refers { IfSome result (Refers state.new.bench.region.objects) }
{
    match state.bench.region.add(fields) {
        Some(at) => Some(Value::Array(at)),
        None => {
            state.due = Some(Cause::Region);
            None
        }
    }
}

/// A thread before the others, if it fits.
pub(crate) fn enter(state: &mut State, code: Value, argument: Value)
    ensures enters { state.new ≡ enters code argument state.old }
    ensures sound { (c : Flat) → IsSoundState c state.old → CanRun c state.old.bench.region.objects (record { code = code; argument = argument }) → IsSoundState c state.new }
{
    if !state.bench.threads.push_front(Ready { code, argument }) {
        state.due = Some(Cause::Table);
    }
}

/// A thread after the others, if it fits.
pub(crate) fn begin(state: &mut State, code: Value, argument: Value)
    ensures begins { state.new ≡ begins code argument state.old }
    ensures sound { (c : Flat) → IsSoundState c state.old → CanRun c state.old.bench.region.objects (record { code = code; argument = argument }) → IsSoundState c state.new }
{
    if !state.bench.threads.push(Ready { code, argument }) {
        state.due = Some(Cause::Table);
    }
}
