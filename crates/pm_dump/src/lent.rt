ghost use Rattle.std.specs.Prelude.{◌≡◌, ◌<◌, ◌≤◌, Some, length, slice_get, slice_range};
ghost use Rattle.pm_dump.specs.Read.{dump_in, AreKept};
ghost use Rattle.pm_dump.specs.Lent.{begins_of, object_shown};

use crate::parts::{Parts, Place};

/// An object of a dump, lent.
#[derive(Clone, Copy, Debug)]
pub struct DumpObject<'a> {
    /// The identity, which is not 0.
    pub id: u32,
    /// What each field holds, null or an identity: at most 255 fields.
    pub fields: &'a [Option<u32>],
    /// The bytes, at most 4,096.
    pub bytes: &'a [u8],
}

// The place of an object.
fn place_at(places: &[Place], at: usize) -> Place
    requires { at < length places.now }
    ensures { slice_get places.now at ≡ Some result }
{
    places[at]
}

// Where an object begins in the lists of all fields and of all bytes.
fn begins(places: &[Place], at: usize) -> (usize, usize)
    requires { at < length places.now }
    ensures { result ≡ begins_of (0, 0) places.now at }
{
    if at == 0 {
        return (0, 0);
    }
    let before = place_at(places, at - 1);
    (before.fields, before.bytes)
}

// The elements between two places.
fn between<T>(items: &[T], from: usize, end: usize) -> &[T]
    requires up { from ≤ end }
    requires within { end ≤ length items.now }
    ensures { result.now ≡ slice_range items.now from end }
{
    &items[from..end]
}

/// The object at a place, lent.
pub(crate) fn object_at(parts: &Parts, at: usize) -> DumpObject<'_>
    requires kept { AreKept parts.now }
    requires within { at < length parts.now.places.items }
    ensures { slice_get (dump_in parts.now).objects at ≡ Some (object_shown result) }
{
    let places = parts.places.as_slice();
    let place = place_at(places, at);
    let (fields, bytes) = begins(places, at);
    DumpObject {
        id: place.id,
        fields: between(parts.fields.as_slice(), fields, place.fields),
        bytes: between(parts.bytes.as_slice(), bytes, place.bytes),
    }
}
