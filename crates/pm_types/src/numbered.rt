ghost use Rattle.std.specs.Prelude.{◌≡◌, ◌<◌, true, false, length, is_some, None, IfErr, OnOk, OnErr};
ghost use Rattle.std.specs.Borrow.{sem};
ghost use Rattle.std.specs.FinMap as map;
ghost use Rattle.std.specs.Option.{option_copied, option_copied_mut};
ghost use Rattle.pm_types.specs.Lending.{lends_value};
ghost use Rattle.pm_types.specs.Near.{near_at, seen_far, AddsNothing};

use crate::NoMemory;
use crate::near::Near;
use std::alloc::Global;
use std::cmp::max;
use std::collections::HashMap;
use std::marker::Model;

/// Values at numbers, seen as a finite map. Where a number is not far above the count of the values, its value stands
/// in a list at the place of that number, and is found at once; the values of others are in a hash map. So the memory
/// does not grow with the numbers.
#[derive(Drop)]
pub struct Numbered<T> {
    // At the place of a number its value, where it is here.
    near: Near<T>,
    // The values that are not there.
    far: HashMap<u64, T>,
    // How many values there are, and how many are expected. They decide where a value is kept, and no clause speaks of
    // them.
    count: usize,
    expected: usize,
}

impl<T> Model for Numbered<T> {
    ghost use Rattle.std.specs.Ordering.{nat_cmp};
    ghost use Rattle.std.specs.FinMap as map;
    ghost use Rattle.std.specs.Coded.{coded_ℕ};
    ghost use Rattle.pm_types.specs.Near.{filled, seen_far};

    ghost Value = { map.FinMap nat_cmp T };

    ghost coded = { map.code coded_ℕ T.code };

    ghost view = { λ it. filled it.near.places.items 0 (seen_far it.far) };
}

// For so many numbers the list has places at least, however few values there are.
const FEW: u64 = 64;

// Makes sure of a place in the list for a number whose value is to stand there, and answers whether it is.
fn goes_near<T: Drop>(near: &mut Near<T>, far: &HashMap<u64, T>, many: usize, number: u64) -> bool
    ensures values { AddsNothing near.old.places.items near.new.places.items }
    ensures place { result ≡ true → number < length near.new.places.items }
    ensures none { result ≡ false → near_at near.new.places.items number ≡ None }
{
    if near.get(number).is_some() {
        return true;
    }
    if far.contains_key(&number) || number / 2 > (many as u64).saturating_add(FEW) {
        return false;
    }
    near.reach(number)
}

// This is the value of the number in the map. After want of memory the value comes back, and all is as it was.
fn insert_far<T: Drop>(
    far: &mut HashMap<u64, T>,
    number: u64,
    value: T,
) -> Result<(), (T, NoMemory)>
    ensures ok { OnOk result (seen_far far.new ≡ map.insert (seen_far far.old) number value) }
    ensures err { OnErr result (seen_far far.new ≡ seen_far far.old) }
    ensures given_back { IfErr result (λ back. back.0 ≡ value) }
{
    match far.insert(number, value) {
        Ok(_) => Ok(()),
        Err(failed) => {
            let ((_, value), refused) = NoMemory::beside(failed);
            Err((value, refused))
        }
    }
}

impl<T> Numbered<T> {
    /// No number has a value.
    pub fn new(alloc: Global) -> Self
        ensures { result ≡ map.empty }
    {
        Numbered::expecting(alloc, 0)
    }

    /// No number has a value, and so many values are to come, whose numbers may come in any order.
    pub fn expecting(alloc: Global, many: usize) -> Self
        ensures { result ≡ map.empty }
    {
        Numbered {
            near: Near::new(alloc),
            far: HashMap::new(alloc),
            count: 0,
            expected: many,
        }
    }

    /// The value of a number, if it has one.
    pub fn get(&self, number: u64) -> Option<&T>
        ensures { option_copied result ≡ map.get self.now number }
    {
        match self.near.get(number) {
            Some(value) => Some(value),
            None => self.far.get(&number),
        }
    }

    /// Whether a number has a value.
    pub fn has(&self, number: u64) -> bool
        ensures { result ≡ is_some (map.get self.now number) }
    {
        self.get(number).is_some()
    }

    /// The value of a number, to be changed, if it has one.
    pub fn get_mut(&mut self, number: u64) -> Option<&mut T>
        ensures* writes_back { sem 𝓛 (lends_value T.row self.entry number result) }
        ensures value { option_copied_mut result ≡ map.get self.old number }
    {
        if self.near.get(number).is_some() {
            self.near.get_mut(number)
        } else {
            self.far.get_mut(&number)
        }
    }
}

impl<T: Drop> Numbered<T> {
    /// This is the value of the number from now on, in place of one that it had. After want of memory the value comes
    /// back, and all is as it was.
    pub fn insert(&mut self, number: u64, value: T) -> Result<(), (T, NoMemory)>
        ensures ok { OnOk result (self.new ≡ map.insert self.old number value) }
        ensures err { OnErr result (self.new ≡ self.old) }
        ensures given_back { IfErr result (λ back. back.0 ≡ value) }
    {
        let is_new = !self.has(number);
        let many = max(self.count, self.expected);
        if goes_near(&mut self.near, &self.far, many, number) {
            self.near.put(number, value);
        } else {
            insert_far(&mut self.far, number, value)?;
        }
        self.count = self.count.saturating_add(usize::from(is_new));
        Ok(())
    }

    /// Takes the value of a number, if it has one: the number has none from then on. It takes no memory.
    pub fn remove(&mut self, number: u64) -> Option<T>
        ensures value { result ≡ map.get self.old number }
        ensures after { self.new ≡ map.remove self.old number }
    {
        let near = self.near.take(number);
        let far = self.far.remove(&number);
        let removed = near.or(far);
        self.count = self.count.saturating_sub(usize::from(removed.is_some()));
        removed
    }
}
