//! The region: its objects, in room that is reserved once.

ghost use Rattle.std.specs.Prelude.{◌≡◌, ◌+◌, ◌*◌, ◌<◌, ◌≤◌, ◌^◌, ◌∷◌, [], ◌++◌, length, take, replicate, All, Some, IfOk, IsSome, IfSome};
ghost use Rattle.m5_region.specs.declared.value.Value.TheVariants.{Null};
ghost use Rattle.m5_region.specs.Region.{ArrayOf, TextOf, Refers, ReferToOlder, Adds, Joins, objects_with_field, units_in, fields_of, field_of, text_of};
ghost use Rattle.m5_region.specs.Layout.{all_kinds, all_content};

use crate::layout::{put_array, put_joined, put_nulls, put_text};
use crate::limits::MOST_UNITS;
use crate::lookup::{field_at, field_count_at, field_unit, text_range};
use crate::units::{kind_of, number_of, set_unit};
use crate::value::{Ref, Value};
use std::alloc::{AllocError, Global};
use std::marker::Model;

/// Objects, each an array of values or a text, in room for a number of units. An object is named by
/// its number from 0, and refers to older ones alone.
#[derive(Drop)]
pub struct Region {
    kinds: Vec<u8>,
    content: Vec<u8>,
    starts: Vec<u32>,
    room: usize,
}

impl Model for Region {
    ghost use Rattle.std.specs.Prelude.{◌-◌, length};
    ghost use Rattle.std.specs.Vec.{vec_capacity};
    ghost use Rattle.m5_region.specs.Region.{Contents};
    ghost use Rattle.m5_region.specs.code.Stored.{objects_in};
    ghost use Rattle.m5_region.specs.code.Keeps.{Keeps};

    ghost Value = { Contents };

    ghost view = { λ r.
        record { objects = objects_in r.kinds.items r.content.items; left = r.room - length r.kinds.items } };

    ghost invariant = { λ r.
        Keeps r.kinds.items r.content.items r.starts.items r.room
        (vec_capacity r.kinds) (vec_capacity r.content) (vec_capacity r.starts) };
}

impl Region {
    /// An empty region with room for a number of units, all of it reserved.
    pub fn make(alloc: Global, units: u64) -> Result<Region, AllocError>
        requires { units ≤ MOST_UNITS }
        ensures { IfOk result (λ r. r ≡ record { objects = []; left = units }) }
    {
        let room = units as usize;
        let kinds = Vec::with_capacity(alloc, room)?;
        let content = Vec::with_capacity(alloc, 8 * room)?;
        let starts = Vec::with_capacity(alloc, room)?;
        Ok(Region {
            kinds,
            content,
            starts,
            room,
        })
    }

    /// How many objects there are.
    pub fn count(&self) -> u32
        ensures { result ≡ length self.now.objects }
    {
        self.starts.len() as u32
    }

    /// How many units are left.
    pub fn units_left(&self) -> u64
        ensures { result ≡ self.now.left }
    {
        (self.room - self.kinds.len()) as u64
    }

    /// Each reference in an object is to an older one of its kind. The call does nothing.
    pub fn refers_to_older(&self)
        ensures { ReferToOlder self.now.objects }
    {
        let _ = &self.kinds;
    }

    /// Adds an array of these values; None where fewer units are left than one more than there are
    /// values, and then nothing changes.
    pub fn add(&mut self, fields: &[Value]) -> Option<Ref>
        requires count { (0 < length fields.now) × (length fields.now < 2 ^ 16) }
        requires refer { All (Refers self.old.objects) fields.now }
        ensures { Adds self.old (ArrayOf fields.now) result self.new }
    {
        if self.room - self.kinds.len() < fields.len() + 1 {
            return None;
        }
        let at = Ref(self.starts.len() as u32);
        self.starts.push_reserved(self.kinds.len() as u32);
        put_array(&mut self.kinds, &mut self.content, fields);
        Some(at)
    }

    /// Adds an array of this many nulls, for `fill` to set; None where too few units are left, and
    /// then nothing changes.
    pub fn add_nulls(&mut self, count: u32) -> Option<Ref>
        requires { (0 < count) × (count < 2 ^ 16) }
        ensures { Adds self.old (ArrayOf (replicate count Null)) result self.new }
    {
        let count = count as usize;
        if self.room - self.kinds.len() < count + 1 {
            return None;
        }
        let at = Ref(self.starts.len() as u32);
        self.starts.push_reserved(self.kinds.len() as u32);
        put_nulls(&mut self.kinds, &mut self.content, count);
        Some(at)
    }

    /// Adds a text, which takes a unit and one more for every eight bytes begun; None where too few
    /// units are left, and then nothing changes.
    pub fn add_text(&mut self, bytes: &[u8]) -> Option<Ref>
        ensures { Adds self.old (TextOf bytes.now) result self.new }
    {
        if 8 * (self.room - self.kinds.len()) < bytes.len() + 8 {
            return None;
        }
        let at = Ref(self.starts.len() as u32);
        self.starts.push_reserved(self.kinds.len() as u32);
        put_text(&mut self.kinds, &mut self.content, bytes);
        Some(at)
    }

    /// The kind bytes of the units in use, in order: 0 null, 1 truth value, 2 number, 3 and 4
    /// reference to a text and to an array, 5 and 6 header of an array and of a text, 7 bytes of a
    /// text.
    pub fn kinds(&self) -> &[u8]
        ensures { result.now ≡ all_kinds self.now.objects }
    {
        self.kinds.as_slice()
    }

    /// The content bytes of the units in use, in order, eight for each: a number, the most
    /// significant byte first, which of a header is how many fields or bytes follow; or bytes of a
    /// text, and then zeros.
    pub fn content(&self) -> &[u8]
        ensures { result.now ≡ all_content self.now.objects }
    {
        self.content.as_slice()
    }

    /// How many fields an array has.
    pub fn fields(&self, at: Ref) -> u32
        requires { IsSome (fields_of self.now.objects at.0) }
        ensures { IfSome (fields_of self.now.objects at.0) (λ vs. result ≡ length vs) }
    {
        field_count_at(&self.kinds, &self.content, &self.starts, at.0)
    }

    /// A field of an array.
    pub fn field(&self, at: Ref, place: u32) -> Value
        requires { IsSome (field_of self.now.objects at.0 place) }
        ensures is { field_of self.now.objects at.0 place ≡ Some result }
        ensures older { Refers (take at.0 self.now.objects) result }
        ensures refers { Refers self.now.objects result }
    {
        field_at(&self.kinds, &self.content, &self.starts, at.0, place)
    }

    /// The bytes of a text.
    pub fn text(&self, at: Ref) -> &[u8]
        requires { IsSome (text_of self.now.objects at.0) }
        ensures { text_of self.now.objects at.0 ≡ Some result.now }
    {
        let (from, len) = text_range(&self.kinds, &self.content, &self.starts, at.0);
        &self.content[from..from + len]
    }

    /// Adds a text of the bytes of two texts, the first's before the second's; None where too few
    /// units are left, and then nothing changes.
    pub fn add_joined(&mut self, first: Ref, second: Ref) -> Option<Ref>
        requires first { IsSome (text_of self.old.objects first.0) }
        requires second { IsSome (text_of self.old.objects second.0) }
        ensures { Joins self.old first.0 second.0 result self.new }
    {
        let first = text_range(&self.kinds, &self.content, &self.starts, first.0);
        let second = text_range(&self.kinds, &self.content, &self.starts, second.0);
        if 8 * (self.room - self.kinds.len()) < first.1 + second.1 + 8 {
            return None;
        }
        let at = Ref(self.starts.len() as u32);
        self.starts.push_reserved(self.kinds.len() as u32);
        put_joined(&mut self.kinds, &mut self.content, first, second);
        Some(at)
    }

    /// Sets a field of the newest object, an array.
    pub fn fill(&mut self, at: Ref, place: u32, value: Value)
        requires newest { at.0 + 1 ≡ length self.old.objects }
        requires there { IsSome (field_of self.old.objects at.0 place) }
        requires refers { Refers (take at.0 self.old.objects) value }
        ensures objects { self.new.objects ≡ objects_with_field self.old.objects at.0 place value }
        ensures left { self.new.left ≡ self.old.left }
    {
        let unit = field_unit(&self.kinds, &self.content, &self.starts, at.0, place);
        set_unit(
            &mut self.kinds,
            &mut self.content,
            unit,
            kind_of(value),
            number_of(value),
        );
    }

    /// Keeps the first objects, as many as `count`, and gives back the units of the others.
    pub fn cut(&mut self, count: u32)
        ensures objects { self.new.objects ≡ take count self.old.objects }
        ensures left { self.new.left + units_in self.new.objects ≡ self.old.left + units_in self.old.objects }
    {
        if (count as usize) < self.starts.len() {
            let end = self.starts[count as usize] as usize;
            self.kinds.truncate(end);
            self.content.truncate(8 * end);
            self.starts.truncate(count as usize);
        }
    }
}
