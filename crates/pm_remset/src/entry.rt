ghost use Rattle.std.specs.Prelude.{◌≡◌};

use pm_types::{Addr, RefSource};
use std::marker::Model;

// What stores the address.
#[repr(u8)]
#[derive(Clone, Copy)]
enum Kind {
    Root,
    Handle,
    Field,
}

/// A source, and the slot that it names, seen as both. The fields are of each kind of source in turn, so that an entry
/// takes 24 bytes.
#[derive(Drop)]
pub(crate) struct Entry {
    // The number of the root, or of the car in which the object lies.
    number: u64,
    // The client, or the slot of the object.
    holder: u32,
    // The register of the client, or the field of the object.
    index: u32,
    // The slot that the source names.
    named: u32,
    kind: Kind,
}

impl Model for Entry {
    ghost use Rattle.std.specs.Prelude.{ℕ};
    ghost use Rattle.std.specs.Coded.{coded×, coded_ℕ};
    ghost use Rattle.pm_types.specs.declared.source.RefSource.{RefSource};
    ghost use Rattle.pm_types.specs.contracts.source.RefSource as source;
    ghost use Rattle.pm_remset.specs.Entries.{source_of};

    ghost Value = { RefSource × ℕ };

    ghost coded = { coded× source.the_row.coded coded_ℕ };

    ghost view = { λ it. (source_of it.kind it.number it.holder it.index, it.named) };
}

impl Entry {
    /// The entry of the source, which names the slot.
    pub(crate) fn new(source: RefSource, slot: u32) -> Entry
        ensures { result ≡ (source, slot) }
    {
        match source {
            RefSource::Root(number) => Entry {
                number,
                holder: 0,
                index: 0,
                named: slot,
                kind: Kind::Root,
            },
            RefSource::Handle { client, register } => Entry {
                number: 0,
                holder: client,
                index: register,
                named: slot,
                kind: Kind::Handle,
            },
            RefSource::Field { at, index } => Entry {
                number: at.car,
                holder: at.slot,
                index,
                named: slot,
                kind: Kind::Field,
            },
        }
    }

    /// The source.
    pub(crate) fn source(&self) -> RefSource
        ensures { result ≡ self.now.0 }
    {
        match self.kind {
            Kind::Root => RefSource::Root(self.number),
            Kind::Handle => RefSource::Handle {
                client: self.holder,
                register: self.index,
            },
            Kind::Field => RefSource::Field {
                at: Addr {
                    car: self.number,
                    slot: self.holder,
                },
                index: self.index,
            },
        }
    }

    /// The slot that the source names.
    pub(crate) fn slot(&self) -> u32
        ensures { result ≡ self.now.1 }
    {
        self.named
    }

    /// Lets the source name this slot.
    pub(crate) fn set_slot(&mut self, slot: u32)
        ensures { self.new ≡ (self.old.0, slot) }
    {
        self.named = slot;
    }
}
