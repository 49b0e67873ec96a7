//! The objects of a message, as it spells them.

ghost use Rattle.std.specs.Prelude.{◌≡◌, ◌≤◌, ◌<◌, ◌+◌, ◌^◌, ◌++◌, ◌∷◌, [], length, map, slice_get, OnOk};
ghost use Rattle.m5_message.specs.Packing.{IsFit, reaches, sent};
ghost use Rattle.m5_message.specs.Spelling.{short_of, first_bytes, content_bytes, contents_bytes, ids_bytes};
ghost use Rattle.m5_marshal.specs.code.Opened.{others_of};
ghost use Rattle.m5_marshal.specs.code.Keys.{reached, marks, AllHas, AreSent, PartsSent, IsThere, HasFields, Rises, HasAll, fields_bytes, parts_bytes, values_behind, id_of};

use crate::key::Key;
use crate::opened::opened;
use crate::opening::{Opened, Others};
use crate::pass::{count_of, other_at};
use crate::spell::{put_first, put_text, put_value};
use m5_dictionary::dicts::Dicts;
use m5_region::region::Region;
use m5_region::value::Ref;
use std::alloc::AllocError;

/// The fields of an array behind its first ones, in an object of this number.
fn put_fields(
    out: &mut Vec<u8>,
    region: &Region,
    dicts: &Dicts,
    keys: &[Key],
    own: usize,
    at: Ref,
    first: u32,
    others: Others,
) -> Result<(), AllocError>
    requires there { HasFields region.now.objects at.0 (first + length (others_of others)) }
    requires few { first + length (others_of others) < 2 ^ 32 }
    requires rising { Rises (marks keys.now) }
    requires sent { AreSent dicts.now (marks keys.now) (others_of others) (values_behind region.now.objects at.0 first) }
    ensures { OnOk result (out.new.items ≡ out.old.items ++ fields_bytes dicts.now (marks keys.now) own (others_of others.entry) (values_behind region.now.objects at.0 first)) }
{
    let count = count_of(others);
    for place in 0..count {
        let id = other_at(others, place);
        let value = region.field(at, first + place as u32);
        put_value(out, dicts, keys, own, id, value)?;
    }
    Ok(())
}

/// An opened object, behind its number.
fn put_parts(
    out: &mut Vec<u8>,
    region: &Region,
    dicts: &Dicts,
    keys: &[Key],
    own: usize,
    at: Ref,
    parts: Opened,
) -> Result<(), AllocError>
    requires there { IsThere region.now.objects at.0 parts }
    requires rising { Rises (marks keys.now) }
    requires sent { PartsSent dicts.now (marks keys.now) region.now.objects at.0 parts }
    ensures { OnOk result (out.new.items ≡ out.old.items ++ parts_bytes dicts.now (marks keys.now) region.now.objects at.0 own parts.entry) }
{
    match parts {
        Opened::Whole(bytes) => put_text(out, bytes)?,
        Opened::Pair(others) => put_fields(out, region, dicts, keys, own, at, 0, others)?,
        Opened::Parts(first, others) => {
            put_first(out, first)?;
            put_fields(out, region, dicts, keys, own, at, 1, others)?;
        }
    }
    Ok(())
}

/// The content of an object.
fn put_content(
    out: &mut Vec<u8>,
    region: &Region,
    dicts: &Dicts,
    keys: &[Key],
    own: usize,
    key: Key,
) -> Result<(), AllocError>
    requires fit { IsFit dicts.now region.now.objects (reached key) (slice_get region.now.objects key.at) }
    requires rising { Rises (marks keys.now) }
    requires sent { AllHas (marks keys.now) (reaches dicts.now region.now.objects (reached key)) }
    ensures { OnOk result (out.new.items ≡ out.old.items ++ content_bytes dicts.now own key.id (sent dicts.now region.now.objects (marks keys.now) (reached key))) }
{
    let parts = opened(region, dicts, key);
    put_parts(out, region, dicts, keys, own, Ref(key.at), parts)?;
    Ok(())
}

/// The contents of all objects.
pub(crate) fn put_contents(
    out: &mut Vec<u8>,
    region: &Region,
    dicts: &Dicts,
    keys: &[Key],
) -> Result<(), AllocError>
    requires { HasAll dicts.now region.now.objects (marks keys.now) }
    ensures { OnOk result (out.new.items ≡ out.old.items ++ contents_bytes dicts.now 0 (map id_of (marks keys.now)) (map (sent dicts.now region.now.objects (marks keys.now)) (marks keys.now))) }
{
    for own in 0..keys.len() {
        put_content(out, region, dicts, keys, own, keys[own])?;
    }
    Ok(())
}

/// The type ids of all objects.
pub(crate) fn put_ids(out: &mut Vec<u8>, keys: &[Key]) -> Result<(), AllocError>
    ensures { OnOk result (out.new.items ≡ out.old.items ++ ids_bytes (map id_of (marks keys.now))) }
{
    for key in keys {
        let bytes = key.id.to_be_bytes();
        out.extend_from_slice(&bytes)?;
    }
    Ok(())
}
