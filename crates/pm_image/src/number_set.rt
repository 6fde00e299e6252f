ghost use Rattle.std.specs.Prelude.{◌≡◌, ◌<◌, true, length, OnOk, OnErr};
ghost use Rattle.std.specs.FinSet as set;
ghost use Rattle.pm_image.specs.Marked.{is_marked, MarksNothing};

use pm_types::NoMemory;
use std::alloc::Global;
use std::collections::HashSet;
use std::marker::Model;

/// Numbers that were met: identities, cars or pages. It is seen as a finite set. A number that is not far above the
/// count of them is marked in a list at its place, and the others are in a hash set, so that the memory does not grow
/// with the numbers.
#[derive(Drop)]
pub struct NumberSet {
    // At the place of a number whether it is here.
    near: Vec<bool>,
    // The numbers that are not there.
    far: HashSet<u64>,
    // How often a number was put. It decides where one is kept, and no clause speaks of it.
    count: u64,
}

impl Model for NumberSet {
    ghost use Rattle.std.specs.FinSet as set;
    ghost use Rattle.std.specs.Ordering.{nat_cmp};
    ghost use Rattle.std.specs.Coded.{coded_ℕ};
    ghost use Rattle.pm_image.specs.Marked.{with_marked, seen_far};

    ghost Value = { set.FinSet nat_cmp };

    ghost coded = { set.code coded_ℕ };

    ghost view = { λ it. with_marked it.near.items 0 (seen_far it.far) };
}

// For each number that was put the list has so many places at most, and so many numbers are counted in any case.
const PLACES: u64 = 16;

const FEW: u64 = 256;

// Whether the number is marked in the list.
fn is_marked(near: &[bool], number: u64) -> bool
    ensures { result ≡ is_marked near.now number }
{
    match near.get(number as usize) {
        Some(marked) => *marked,
        None => false,
    }
}

// Makes sure of a place for the number, which is not too far above the count, and answers whether there is one.
fn reach(near: &mut Vec<bool>, count: u64, number: u64) -> bool
    ensures marks { MarksNothing near.old.items near.new.items }
    ensures place { result ≡ true → number < length near.new.items }
{
    let places = near.len() as u64;
    if number < places {
        return true;
    }
    if number / PLACES > count.saturating_add(FEW) {
        return false;
    }
    if near.reserve((number - places) as usize).is_err() {
        return false;
    }
    while near.len() as u64 <= number {
        if near.push(false).is_err() {
            return false;
        }
    }
    true
}

impl NumberSet {
    /// No number.
    pub fn new(alloc: Global) -> Self
        ensures { result ≡ set.empty }
    {
        NumberSet {
            near: Vec::new(alloc),
            far: HashSet::new(alloc),
            count: 0,
        }
    }

    /// Whether the number is one of them.
    pub fn contains(&self, number: u64) -> bool
        ensures { result ≡ set.contains self.now number }
    {
        if is_marked(&self.near, number) {
            true
        } else {
            self.far.contains(&number)
        }
    }

    /// One number more, or the same ones where it is one of them.
    pub fn insert(&mut self, number: u64) -> Result<(), NoMemory>
        ensures ok { OnOk result (self.new ≡ set.insert self.old number) }
        ensures err { OnErr result (self.new ≡ self.old) }
    {
        if reach(&mut self.near, self.count, number) {
            self.near[number as usize] = true;
        } else {
            self.far.insert(number)?;
        }
        self.count = self.count.saturating_add(1);
        Ok(())
    }
}
