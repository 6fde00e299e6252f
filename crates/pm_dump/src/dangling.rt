ghost use Rattle.std.specs.Prelude.{◌≡◌, ◌↔◌, ◌+◌, ◌≤◌, ◌<◌, ◌^◌, IsTrue, T, length, Option, IfSome, slice_range};
ghost use Rattle.std.specs.List.{AllByRecursion};
ghost use Rattle.std.specs.Option.{MatchOption};
ghost use Rattle.std.specs.Ordering.{nat_cmp};
ghost use Rattle.std.specs.FinMap.{is_sorted};
ghost use Rattle.pm_dump.specs.Dump.{dump_lines};
ghost use Rattle.pm_dump.specs.Faults.{NamesListed, IsFirstDangling};
ghost use Rattle.pm_dump.specs.Read.{keyed, IsAmong, AreAmong, IsFollowed, IsNamed, IsFirstWithout, dump_in, AreKept};

use crate::parts::{Parts, Place};

// Whether an object of this identity is among those in ascending order.
fn is_listed(places: &[Place], id: u32) -> bool
    requires { T (is_sorted nat_cmp (keyed places.now)) }
    ensures { IsTrue result ↔ IsAmong places.now id }
{
    match places.binary_search_by_key(&id, |place| place.id) {
        Ok(_) => true,
        Err(_) => false,
    }
}

// Whether a field is null or holds one of them.
fn is_followed(places: &[Place], field: Option<u32>) -> bool
    requires { T (is_sorted nat_cmp (keyed places.now)) }
    ensures { IsTrue result ↔ IfSome field (IsAmong places.now) }
{
    match field {
        Some(id) => is_listed(places, id),
        None => true,
    }
}

// Whether each field is null or holds one of them.
fn are_followed(places: &[Place], fields: &[Option<u32>]) -> bool
    requires { T (is_sorted nat_cmp (keyed places.now)) }
    ensures { IsTrue result ↔ AreAmong places.now fields.now }
{
    for field in fields {
        if !is_followed(places, *field) {
            return false;
        }
    }
    true
}

// The fields between two places.
fn part(fields: &[Option<u32>], from: usize, end: usize) -> &[Option<u32>]
    requires up { from ≤ end }
    requires within { end ≤ length fields.now }
    ensures { result.now ≡ slice_range fields.now from end }
{
    &fields[from..end]
}

// The place of the first object of which a field holds none of them.
fn stray_object(parts: &Parts) -> Option<usize>
    requires kept { AreKept parts.now }
    requires sorted { T (is_sorted nat_cmp (keyed parts.now.places.items)) }
    ensures { MatchOption result (AllByRecursion (IsFollowed parts.now.places.items) (dump_in parts.now).objects)
        (λ at. IsFirstWithout (IsFollowed parts.now.places.items) (dump_in parts.now).objects at) }
{
    let places = parts.places.as_slice();
    let fields = parts.fields.as_slice();
    let mut from = 0;
    let mut index = 0;
    while index < places.len() {
        let end = places[index].fields;
        if !are_followed(places, part(fields, from, end)) {
            return Some(index);
        }
        from = end;
        index += 1;
    }
    None
}

// The place of the first name that stands for none of them.
fn stray_root(parts: &Parts) -> Option<usize>
    requires { T (is_sorted nat_cmp (keyed parts.now.places.items)) }
    ensures { MatchOption result (AllByRecursion (IsNamed parts.now.places.items) (dump_in parts.now).roots)
        (λ at. IsFirstWithout (IsNamed parts.now.places.items) (dump_in parts.now).roots at) }
{
    let places = parts.places.as_slice();
    let roots = parts.roots.as_slice();
    let mut index = 0;
    while index < roots.len() {
        if !is_listed(places, roots[index].id) {
            return Some(index);
        }
        index += 1;
    }
    None
}

// The number of the line of an object.
fn object_line(at: usize) -> u64
    requires { at < 2 ^ 63 }
    ensures { result ≡ at + 2 }
{
    at as u64 + 2
}

// The number of the line of a name behind so many objects.
fn root_line(objects: usize, at: usize) -> u64
    requires objects { objects < 2 ^ 63 }
    requires roots { at + 1 < 2 ^ 63 }
    ensures { result ≡ objects + 2 + at }
{
    objects as u64 + 2 + at as u64
}

/// The number of the first line that names an object that is not listed.
pub(crate) fn first_dangling(parts: &Parts) -> Option<u64>
    requires kept { AreKept parts.now }
    requires sorted { T (is_sorted nat_cmp (keyed parts.now.places.items)) }
    ensures { MatchOption result
        (AllByRecursion (NamesListed (dump_in parts.now).objects) (dump_lines (dump_in parts.now)))
        (λ number. IsFirstDangling (dump_in parts.now).objects 1 (dump_lines (dump_in parts.now)) number) }
{
    match stray_object(parts) {
        Some(at) => Some(object_line(at)),
        None => match stray_root(parts) {
            Some(at) => Some(root_line(parts.places.len(), at)),
            None => None,
        },
    }
}
