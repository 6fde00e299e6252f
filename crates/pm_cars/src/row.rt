ghost use Rattle.std.specs.Prelude.{◌≡◌, ◌+◌, ◌<◌, ◌≤◌, ◌∷◌, [], ◌++◌, length, drop, slice_index_or, slice_set, vec_capacity, IfSome, IfOk, OnOk};
ghost use Rattle.std.specs.List.{remove};
ghost use Rattle.pm_cars.specs.Entries.{Entry as entry, IsAt};

use crate::entry::{Entry, copy_all, is_at};
use pm_types::{Addr, NoMemory, Slot};
use std::alloc::Global;
use std::cmp::max;
use std::marker::Model;
use std::mem;

/// Entries in a row, seen as their list and as the number of entries for which there is memory. An entry with few
/// before it goes away without a move of those behind it.
#[derive(Drop)]
pub(crate) struct Row {
    // The blanks of entries that went from the front, and then the entries.
    items: Vec<Entry>,
    blanks: usize,
}

/// What a Live slot holds while its object is changed, and what a blank holds.
pub(crate) const NOWHERE: Slot = Slot::Moved(Addr { car: 0, slot: 0 });

const BLANK: Entry = (0, NOWHERE);

impl Model for Row {
    ghost use Rattle.std.specs.Prelude.{◌-◌, ◌≤◌, drop, length, vec_capacity};
    ghost use Rattle.pm_cars.specs.Rows.{Row as row};

    ghost Value = { row };

    ghost view = { λ r. record { items = drop r.blanks r.items.items; capacity = vec_capacity r.items - r.blanks } };

    ghost invariant = { λ r. r.blanks ≤ length r.items.items };
}

impl Row {
    /// No entries.
    pub(crate) fn new(alloc: Global) -> Row
        ensures { result.items ≡ [] }
    {
        Row {
            items: Vec::new(alloc),
            blanks: 0,
        }
    }

    /// The entries, lent.
    pub(crate) fn as_slice(&self) -> &[Entry]
        ensures { result.now ≡ self.now.items }
    {
        &self.items[self.blanks..]
    }

    /// How many entries there are.
    pub(crate) fn len(&self) -> usize
        ensures { result ≡ length self.now.items }
    {
        self.items.len() - self.blanks
    }

    /// The place of the slot's entry, where it stands as far behind the first blank as its number says: so it is where
    /// no slot before it went away but from the front.
    pub(crate) fn numbered_place(&self, slot: u32) -> Option<usize>
        ensures { IfSome result (IsAt self.now.items slot) }
    {
        let number = slot as usize;
        if self.blanks <= number && is_at(&self.items, slot, number) {
            Some(number - self.blanks)
        } else {
            None
        }
    }

    /// What the entry at this place holds.
    pub(crate) fn content(&self, place: usize) -> &Slot
        requires { place < length self.now.items }
        ensures { (d : entry) → result.now ≡ (slice_index_or self.now.items place d).1 }
    {
        &self.items[self.blanks + place].1
    }

    /// Puts the entry at the end, where there is memory for it.
    pub(crate) fn push_reserved(&mut self, entry: Entry)
        requires { length self.old.items < self.old.capacity }
        ensures items { self.new.items ≡ self.old.items ++ entry ∷ [] }
        ensures capacity { self.new.capacity ≡ self.old.capacity }
    {
        self.items.push_reserved(entry);
    }

    /// Lets the entry at this place hold this, and hands back what it held.
    pub(crate) fn replace(&mut self, place: usize, content: Slot) -> Slot
        requires { place < length self.old.items }
        ensures held { (d : entry) → result ≡ (slice_index_or self.old.items place d).1 }
        ensures row { (d : entry) → self.new ≡ record self.old { items = slice_set self.old.items place ((slice_index_or self.old.items place d).0, content) } }
    {
        let entry = &mut self.items[self.blanks + place];
        mem::replace(&mut entry.1, content)
    }

    /// Takes the entry at this place away, and hands it back. The fewer move, those before it or those behind it.
    pub(crate) fn remove(&mut self, place: usize) -> Entry
        requires { place < length self.old.items }
        ensures value { (d : entry) → result ≡ slice_index_or self.old.items place d }
        ensures items { self.new.items ≡ remove self.old.items place }
        ensures capacity { self.old.capacity ≤ self.new.capacity + 1 }
    {
        let at = self.blanks + place;
        let behind = self.items.len() - at - 1;
        if behind <= place {
            return self.items.remove(at);
        }
        let entry = blank_first(&mut self.items, self.blanks, place);
        self.blanks += 1;
        entry
    }

    /// Makes space for one entry more, where there is none: for a quarter more than there are, and for four at least,
    /// or as many as there are blanks where these are no fewer. So little of what cars take is left unused, and the
    /// entries are moved seldom.
    pub(crate) fn make_space(&mut self) -> Result<(), NoMemory>
        ensures items { self.new.items ≡ self.old.items }
        ensures ok { OnOk result (length self.old.items < self.new.capacity) }
        ensures kept { self.old.capacity ≤ self.new.capacity }
    {
        let count = self.items.len();
        if count == self.items.capacity() {
            let more = max(4, count / 4);
            if self.blanks < more {
                self.items.reserve_exact(more)?;
            } else {
                self.items.rotate_left(self.blanks);
                self.items.truncate(count - self.blanks);
                self.blanks = 0;
            }
        }
        Ok(())
    }

    /// Takes memory for so many entries more.
    pub(crate) fn reserve_exact(&mut self, more: usize) -> Result<(), NoMemory>
        ensures items { self.new.items ≡ self.old.items }
        ensures ok { OnOk result (length self.old.items + more ≤ self.new.capacity) }
        ensures kept { self.old.capacity ≤ self.new.capacity }
    {
        self.items.reserve_exact(more)?;
        Ok(())
    }

    /// The same entries again, with space for so many more, as there is here.
    pub(crate) fn copy(&self, alloc: Global, spare: usize) -> Result<Row, NoMemory>
        requires { length self.now.items + spare ≤ self.now.capacity }
        ensures items { IfOk result (λ copied. copied.items ≡ self.now.items) }
        ensures space { IfOk result (λ copied. length self.now.items + spare ≤ copied.capacity) }
    {
        let items = copy_all(alloc, &self.items[self.blanks..], spare)?;
        Ok(Row { items, blanks: 0 })
    }
}

// Lets the entry at this place be the first, and those that were before it come after it.
fn bring_first(entries: &mut [Entry], place: usize)
    requires { place < length entries.old }
    ensures { (d : entry) → entries.new ≡ slice_index_or entries.old place d ∷ remove entries.old place }
{
    entries[..=place].rotate_right(1);
}

// Takes the entry at this place behind the blanks away, and leaves one blank more.
fn blank_first(items: &mut Vec<Entry>, blanks: usize, place: usize) -> Entry
    requires { blanks + place < length items.old.items }
    ensures value { (d : entry) → result ≡ slice_index_or (drop blanks items.old.items) place d }
    ensures length { length items.new.items ≡ length items.old.items }
    ensures rest { drop (blanks + 1) items.new.items ≡ remove (drop blanks items.old.items) place }
    ensures capacity { vec_capacity items.new ≡ vec_capacity items.old }
{
    bring_first(&mut items[blanks..], place);
    mem::replace(&mut items[blanks], BLANK)
}
