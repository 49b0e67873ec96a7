//! What each answer makes of a site.

ghost use Rattle.std.specs.Prelude.{◌≡◌, ℕ, Some, IsSome, slice_get};
ghost use Rattle.m5_machine.specs.Blocks.{Flat};
ghost use Rattle.m5_region.specs.Region.{Refers};
ghost use Rattle.m5_terms.specs.Seal.{seal_bytes};
ghost use Rattle.m5_terms.specs.Worlds.{IsSiteWorld};
ghost use Rattle.m5_message.specs.Message.{message_at};
ghost use Rattle.m5_site.specs.Object.{code_of};
ghost use Rattle.m5_site.specs.Answers.{read_text, read_none, got_text, handled, handled_by, all_handled, arrived, after_call, after_take};
ghost use Rattle.m5_site.specs.code.Sound.{IsSoundState, IsClosureIn, KeepsSound};

use crate::making::{begin, enter, new_array, new_text};
use crate::object::Object;
use crate::state::State;
use m5_marshal::{UnpackEnd, unpack};
use m5_region::value::Value;
use m5_terms::ask::{Answer, AnswerOf, Cause};
use m5_terms::seal::seal_of;
use m5_terms::types::World;

/// Enters a closure with a text.
pub(crate) fn got_text(state: &mut State, next: Value, bytes: &[u8])
    ensures is { state.new ≡ got_text next bytes.now state.old }
    ensures sound { KeepsSound next state.old state.new }
{
    if let Some(text) = new_text(state, bytes) {
        enter(state, next, text);
    }
}

/// Enters a closure with `inr` of a text.
pub(crate) fn read_text(state: &mut State, next: Value, bytes: &[u8])
    ensures is { state.new ≡ read_text next bytes.now state.old }
    ensures sound { KeepsSound next state.old state.new }
{
    let Some(text) = new_text(state, bytes) else {
        return;
    };
    if let Some(some) = new_array(state, &[Value::Bool(true), text]) {
        enter(state, next, some);
    }
}

/// Enters a closure with `inl` of unit.
pub(crate) fn read_none(state: &mut State, next: Value)
    ensures is { state.new ≡ read_none next state.old }
    ensures sound { KeepsSound next state.old state.new }
{
    if let Some(none) = new_array(state, &[Value::Bool(false), Value::Null]) {
        enter(state, next, none);
    }
}

/// Begins a handler's call with a text: the text, the closure with which the call ends, the array of
/// the two, and the thread.
fn handled(state: &mut State, finish: u16, bytes: &[u8], handler: Value)
    ensures is { state.new ≡ handled finish bytes.now handler state.old }
    ensures sound { KeepsSound handler state.old state.new }
{
    let Some(text) = new_text(state, bytes) else {
        return;
    };
    let Some(end) = new_array(state, &[Value::Int(finish as i64)]) else {
        return;
    };
    if let Some(both) = new_array(state, &[text, end]) {
        begin(state, handler, both);
    }
}

/// Begins the call of the handler of a number, if the site has it.
fn handled_by(state: &mut State, finish: u16, bytes: &[u8], number: u32)
    ensures is { state.new ≡ handled_by finish bytes.now (slice_get state.old.handlers number) state.old }
    ensures sound { (code : Flat) → IsSoundState code state.old → IsSoundState code state.new }
{
    if let Some(handler) = state.handlers.get(number) {
        handled(state, finish, bytes, handler);
    }
}

/// Begins the calls of these handlers in order, up to the first that does not fit.
pub(crate) fn all_handled(state: &mut State, finish: u16, bytes: &[u8], numbers: &[u32])
    ensures is { state.new ≡ all_handled finish bytes.now numbers.now state.old }
    ensures sound { (code : Flat) → IsSoundState code state.old → IsSoundState code state.new }
{
    'handlers: for number in numbers {
        handled_by(state, finish, bytes, *number);
        if state.due.is_some() {
            return;
        }
    }
}

/// Reads a message into the site, and begins its thread; bytes that are none change nothing.
fn arrived(state: &mut State, object: &Object, world: World, session: u32, bytes: &[u8])
    requires { IsSiteWorld world }
    ensures is { state.new ≡ arrived (message_at object.now.dicts world (seal_bytes session) bytes.now) state.old }
    ensures sound { IsSoundState (code_of object.now world) state.old → IsSoundState (code_of object.now world) state.new }
{
    object.is_object();
    let seal = seal_of(session);
    match unpack(&mut state.bench.region, object.dicts(), world, &seal, bytes) {
        Ok(thread) => begin(state, thread.code, thread.argument),
        Err(UnpackEnd::Full) => state.due = Some(Cause::Region),
        Err(UnpackEnd::Unsealed) => {}
        Err(UnpackEnd::Outside(_)) => {}
    }
}

/// What an answer to a primitive's call makes of a site.
pub(crate) fn after_call(state: &mut State, primitive: u8, next: Value, answer: &Answer)
    requires { IsSome (after_call state.old primitive next answer.now) }
    ensures is { after_call state.old primitive next answer.now ≡ Some state.new }
    ensures sound { KeepsSound next state.old state.new }
{
    match answer {
        AnswerOf::Done => enter(state, next, Value::Null),
        AnswerOf::Found(text) => {
            if primitive == 2 {
                got_text(state, next, text.bytes());
            } else {
                read_text(state, next, text.bytes());
            }
        }
        AnswerOf::Missing => read_none(state, next),
        _ => {}
    }
}

/// What an answer to a look for something new makes of a site.
pub(crate) fn after_take(
    state: &mut State,
    object: &Object,
    world: World,
    session: u32,
    answer: &Answer,
)
    requires world { IsSiteWorld world }
    requires kind { IsSome (after_take object.now session world state.old answer.now) }
    ensures is { after_take object.now session world state.old answer.now ≡ Some state.new }
    ensures sound { IsSoundState (code_of object.now world) state.old → IsSoundState (code_of object.now world) state.new }
{
    let finish = object.finish();
    match answer {
        AnswerOf::Message(_, bytes) => arrived(state, object, world, session, bytes.bytes()),
        AnswerOf::Fired(_, number, text) => all_handled(state, finish, text.bytes(), &[*number]),
        AnswerOf::Event(_, numbers, text) => {
            all_handled(state, finish, text.bytes(), numbers.as_slice());
        }
        _ => {}
    }
}
