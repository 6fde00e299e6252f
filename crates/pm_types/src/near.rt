ghost use Rattle.std.specs.Prelude.{◌≡◌, ◌<◌, true, [], length, slice_set, Some, None};
ghost use Rattle.std.specs.Borrow.{sem};
ghost use Rattle.std.specs.Option.{option_copied, option_copied_mut};
ghost use Rattle.pm_types.specs.Near.{near_at, AddsNothing};
ghost use Rattle.pm_types.specs.NearLending.{lends_near};

use std::alloc::Global;

/// A list of places, each of which has a value or none.
#[derive(Drop)]
pub struct Near<T> {
    places: Vec<Option<T>>,
}

impl<T> Near<T> {
    /// No place.
    pub(crate) fn new(alloc: Global) -> Self
        ensures { result.places.items ≡ [] }
    {
        Near {
            places: Vec::new(alloc),
        }
    }

    /// The value at the place of this number, if there is one.
    pub(crate) fn get(&self, number: u64) -> Option<&T>
        ensures { option_copied result ≡ near_at self.now.places.items number }
    {
        match self.places.get(number as usize) {
            Some(place) => place.as_ref(),
            None => None,
        }
    }

    /// The same value, to be changed.
    pub(crate) fn get_mut(&mut self, number: u64) -> Option<&mut T>
        ensures* writes_back { sem 𝓛 (lends_near T.row self.entry number result) }
        ensures value { option_copied_mut result ≡ near_at self.old.places.items number }
    {
        match self.places.get_mut(number as usize) {
            Some(place) => place.as_mut(),
            None => None,
        }
    }
}

impl<T: Drop> Near<T> {
    /// Makes the list longer, by places that have no value, so that it has one for this number, unless memory runs out.
    pub(crate) fn reach(&mut self, number: u64) -> bool
        ensures place { result ≡ true → number < length self.new.places.items }
        ensures values { AddsNothing self.old.places.items self.new.places.items }
    {
        let count = self.places.len() as u64;
        if number < count {
            return true;
        }
        if self.places.reserve((number - count) as usize).is_err() {
            return false;
        }
        while self.places.len() as u64 <= number {
            if self.places.push(None).is_err() {
                return false;
            }
        }
        true
    }

    /// This is the value at the place of the number, which there is.
    pub(crate) fn put(&mut self, number: u64, value: T)
        requires { number < length self.old.places.items }
        ensures { self.new.places.items ≡ slice_set self.old.places.items number (Some value) }
    {
        self.places[number as usize] = Some(value);
    }

    /// Takes the value at the place of this number, if there is one.
    pub(crate) fn take(&mut self, number: u64) -> Option<T>
        ensures value { result ≡ near_at self.old.places.items number }
        ensures after { self.new.places.items ≡ slice_set self.old.places.items number None }
    {
        match self.places.get_mut(number as usize) {
            Some(place) => place.take(),
            None => None,
        }
    }
}
