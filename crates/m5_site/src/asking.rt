//! What a site asks.

ghost use Rattle.std.specs.Prelude.{◌≡◌, IfOk, IsTrue};
ghost use Rattle.m5_machine.specs.Primitive.{two_parts};
ghost use Rattle.m5_region.specs.Region.{Refers};
ghost use Rattle.m5_site.specs.declared.state.Wait.TheVariants as waits;
ghost use Rattle.m5_site.specs.Sending.{has_bytes, sendable_of};
ghost use Rattle.m5_site.specs.Site.{first_of, second_of, bytes_of, first_text, second_text, called, sent_bytes, query};

use crate::object::Object;
use crate::state::State;
use m5_marshal::pack;
use m5_region::queue::Ready;
use m5_region::region::Region;
use m5_region::value::Value;
use m5_terms::ask::{Ask, AskOf};
use m5_terms::seal::seal_of;
use m5_terms::text::Text;
use m5_terms::types::World;
use std::alloc::{AllocError, Global};

/// The two fields of an array of two, and two nulls else.
pub(crate) fn two_parts(region: &Region, value: Value) -> (Value, Value)
    requires { Refers region.now.objects value }
    ensures first { result.0 ≡ first_of (two_parts region.now.objects value) }
    ensures second { result.1 ≡ second_of (two_parts region.now.objects value) }
    ensures first_refers { Refers region.now.objects result.0 }
    ensures second_refers { Refers region.now.objects result.1 }
{
    let Value::Array(at) = value else {
        return (Value::Null, Value::Null);
    };
    if region.fields(at) != 2 {
        return (Value::Null, Value::Null);
    }
    (region.field(at, 0), region.field(at, 1))
}

/// A copy of the bytes of a text.
fn copied(alloc: Global, region: &Region, value: Value) -> Result<Text, AllocError>
    requires { Refers region.now.objects value }
    ensures { IfOk result (λ t. t ≡ bytes_of region.now.objects value) }
{
    match value {
        Value::Text(at) => Text::of(alloc, region.text(at)),
        _ => Text::of(alloc, &[]),
    }
}

fn first_text(alloc: Global, region: &Region, value: Value) -> Result<Text, AllocError>
    requires { Refers region.now.objects value }
    ensures { IfOk result (λ t. t ≡ first_text region.now.objects value) }
{
    let (first, _) = two_parts(region, value);
    copied(alloc, region, first)
}

fn second_text(alloc: Global, region: &Region, value: Value) -> Result<Text, AllocError>
    requires { Refers region.now.objects value }
    ensures { IfOk result (λ t. t ≡ second_text region.now.objects value) }
{
    let (_, second) = two_parts(region, value);
    copied(alloc, region, second)
}

/// The call of a primitive; of the handlers the newest is the call's.
pub(crate) fn called(
    alloc: Global,
    region: &Region,
    handlers: u32,
    primitive: u8,
    argument: Value,
) -> Result<Ask, AllocError>
    requires { Refers region.now.objects argument }
    ensures { IfOk result (λ q. q ≡ called region.now.objects handlers primitive argument) }
{
    match primitive {
        0 => Ok(AskOf::Say(copied(alloc, region, argument)?)),
        1 => {
            let element = first_text(alloc, region, argument)?;
            let text = second_text(alloc, region, argument)?;
            Ok(AskOf::Set(element, text))
        }
        2 => Ok(AskOf::GetText(copied(alloc, region, argument)?)),
        3 => {
            let element = first_text(alloc, region, argument)?;
            Ok(AskOf::On(element, handlers.saturating_sub(1)))
        }
        4 => Ok(AskOf::Read(copied(alloc, region, argument)?)),
        5 => {
            let key = first_text(alloc, region, argument)?;
            let text = second_text(alloc, region, argument)?;
            Ok(AskOf::Write(key, text))
        }
        6 => {
            let key = first_text(alloc, region, argument)?;
            Ok(AskOf::Watch(key, handlers.saturating_sub(1)))
        }
        _ => Ok(AskOf::Show(copied(alloc, region, argument)?)),
    }
}

/// The bytes that are sent for a thread that has any.
fn sent_bytes(
    alloc: Global,
    object: &Object,
    session: u32,
    region: &Region,
    thread: Ready,
) -> Result<Text, AllocError>
    requires { IsTrue (has_bytes object.now.dicts region.now.objects thread) }
    ensures { IfOk result (λ t. t ≡ sent_bytes object.now session region.now.objects (sendable_of object.now.dicts region.now.objects thread)) }
{
    let seal = seal_of(session);
    pack(alloc, region, object.dicts(), &seal, &thread)
}

/// The send of a thread that has bytes.
pub(crate) fn sent(
    alloc: Global,
    object: &Object,
    session: u32,
    state: &State,
    world: World,
    thread: Ready,
) -> Result<Ask, AllocError>
    requires { IsTrue (has_bytes object.now.dicts state.now.bench.region.objects thread) }
    ensures { IfOk result (λ ask. ask ≡ query object.now session state.now (waits.Send world thread)) }
{
    let bytes = sent_bytes(alloc, object, session, &state.bench.region, thread)?;
    Ok(AskOf::Send(world, bytes))
}
