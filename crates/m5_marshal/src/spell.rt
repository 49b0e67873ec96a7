//! Numbers and values as a message spells them.

ghost use Rattle.std.specs.Prelude.{◌≡◌, ℕ, ℤ, Bool, ◌≤◌, ◌<◌, ◌-◌, ◌^◌, ◌++◌, ◌∷◌, [], length, true, OnOk};
ghost use Rattle.std.specs.Int.{w64, to_be_bytes};
ghost use Rattle.m5_region.specs.declared.value.Value.TheVariants as values;
ghost use Rattle.m5_region.specs.Units.{number_of};
ghost use Rattle.m5_message.specs.Packing.{has, place_in, target};
ghost use Rattle.m5_marshal.specs.code.Keys.{reached, marks, Rises, IsSent, sent_bytes};
ghost use Rattle.m5_message.specs.Spelling.{groups_of, short_of, first_bytes};

use crate::key::Key;
use crate::marking::target;
use crate::places::place_of;
use m5_dictionary::dicts::Dicts;
use m5_dictionary::line::TypeLine;
use m5_region::value::Value;
use std::alloc::AllocError;

/// Seven bits a byte, the least first, in at most so many bytes.
#[tactic(auto, unfolding(m5_message::specs::Spelling::groups_of))]
fn put_groups(out: &mut Vec<u8>, most: u8, n: u64) -> Result<(), AllocError>
    ensures { OnOk result (out.new.items ≡ out.old.items ++ groups_of most n) }
{
    if most == 0 {
        return Ok(());
    }
    if n < 128 {
        out.push(n as u8)?;
        return Ok(());
    }
    out.push((n % 128) as u8 + 128)?;
    put_groups(out, most - 1, n / 128)?;
    Ok(())
}

/// A short number.
#[tactic(auto, unfolding(m5_message::specs::Spelling::short_of))]
pub(crate) fn put_short(out: &mut Vec<u8>, n: u64) -> Result<(), AllocError>
    ensures { OnOk result (out.new.items ≡ out.old.items ++ short_of n) }
{
    put_groups(out, 5, n)
}

/// The number that a value holds.
fn int_of(value: Value) -> u64
    ensures { (n : ℤ) → value ≡ values.Int n → result ≡ number_of value }
{
    match value {
        Value::Int(n) => n.cast_unsigned(),
        _ => 0,
    }
}

fn put_truth(out: &mut Vec<u8>, value: Value) -> Result<(), AllocError>
    ensures { OnOk result ((b : Bool) → value ≡ values.Bool b → out.new.items ≡ out.old.items ++ number_of value ∷ []) }
{
    match value {
        Value::Bool(true) => out.push(1)?,
        _ => out.push(0)?,
    }
    Ok(())
}

fn put_int(out: &mut Vec<u8>, value: Value) -> Result<(), AllocError>
    ensures { OnOk result ((n : ℤ) → value ≡ values.Int n → out.new.items ≡ out.old.items ++ to_be_bytes w64 (number_of value)) }
{
    let bytes = int_of(value).to_be_bytes();
    out.extend_from_slice(&bytes)?;
    Ok(())
}

fn put_place(out: &mut Vec<u8>, value: Value) -> Result<(), AllocError>
    ensures { OnOk result ((n : ℤ) → value ≡ values.Int n → out.new.items ≡ out.old.items ++ short_of (number_of value)) }
{
    put_short(out, int_of(value))?;
    Ok(())
}

/// How far back from an object of this number the object of a key stands.
pub(crate) fn put_distance(
    out: &mut Vec<u8>,
    keys: &[Key],
    own: usize,
    key: Key,
) -> Result<(), AllocError>
    requires rising { Rises (marks keys.now) }
    requires there { has (marks keys.now) (reached key) ≡ true }
    ensures { OnOk result (out.new.items ≡ out.old.items ++ short_of (own - place_in (marks keys.now) (reached key))) }
{
    let place = place_of(keys, key);
    put_short(out, own.saturating_sub(place) as u64)?;
    Ok(())
}

/// A reference, as its distance.
fn put_reference(
    out: &mut Vec<u8>,
    keys: &[Key],
    own: usize,
    id: u32,
    value: Value,
) -> Result<(), AllocError>
    requires rising { Rises (marks keys.now) }
    requires there { has (marks keys.now) (record { at = target value; id = id }) ≡ true }
    ensures { OnOk result (out.new.items ≡ out.old.items ++ short_of (own - place_in (marks keys.now) (record { at = target value; id = id }))) }
{
    let at = target(value);
    put_distance(out, keys, own, Key { at, id })
}

/// A value of a type, in an object of this number.
pub(crate) fn put_value(
    out: &mut Vec<u8>,
    dicts: &Dicts,
    keys: &[Key],
    own: usize,
    id: u32,
    value: Value,
) -> Result<(), AllocError>
    requires rising { Rises (marks keys.now) }
    requires sent { IsSent dicts.now (marks keys.now) id value }
    ensures { OnOk result (out.new.items ≡ out.old.items ++ sent_bytes dicts.now (marks keys.now) own id value) }
{
    match dicts.line(id) {
        Some(TypeLine::Unit) | Some(TypeLine::Addr(_)) | None => {}
        Some(TypeLine::Bool) => put_truth(out, value)?,
        Some(TypeLine::Int) => put_int(out, value)?,
        Some(TypeLine::Cell) => put_place(out, value)?,
        Some(TypeLine::Text) => put_reference(out, keys, own, id, value)?,
        Some(TypeLine::Pair(_, _)) => put_reference(out, keys, own, id, value)?,
        Some(TypeLine::Sum(_, _)) => put_reference(out, keys, own, id, value)?,
        Some(TypeLine::List(_)) => put_reference(out, keys, own, id, value)?,
        Some(TypeLine::Fun(_)) => put_reference(out, keys, own, id, value)?,
    }
    Ok(())
}

/// The first field of an array, which is no reference.
pub(crate) fn put_first(out: &mut Vec<u8>, first: Value) -> Result<(), AllocError>
    ensures { OnOk result (out.new.items ≡ out.old.items ++ first_bytes (first ∷ [])) }
{
    match first {
        Value::Bool(true) => out.push(1)?,
        Value::Bool(false) => out.push(0)?,
        Value::Int(n) => put_short(out, n.cast_unsigned())?,
        _ => {}
    }
    Ok(())
}

/// The bytes of a text behind their number.
pub(crate) fn put_text(out: &mut Vec<u8>, bytes: &[u8]) -> Result<(), AllocError>
    ensures { OnOk result (out.new.items ≡ out.old.items ++ (short_of (length bytes.now) ++ bytes.now)) }
{
    put_short(out, bytes.len() as u64)?;
    out.extend_from_slice(bytes)?;
    Ok(())
}
