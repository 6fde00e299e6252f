//! Finding the current header of a store.
ghost use Rattle.std.specs.Prelude.{◌≡◌, ◌<◌, not, ◌==◌, Ok, Err, Some, IfOk, IfErr, IfSome};
ghost use Rattle.pm_layout.specs.Headers.{header_at, HasHeaderSpelling};
ghost use Rattle.pm_layout.specs.Reading.{number_from};
ghost use Rattle.pm_image.specs.Opening.{greater_slot, header_refusal, sound_header};

use crate::slots::{OPEN, gate_place};
use byteorder::{BigEndian, ByteOrder};
use pm_disk::{Disk, DiskFailed};
use pm_layout::{Header, HeaderFault, read_header};
use pm_types::{OpenFault, PAGE_BYTES};

/// A slot as it was read.
#[derive(Clone, Copy)]
pub(crate) struct SlotRead {
    pub(crate) body: [u8; 96],
    pub(crate) gate: u8,
}

/// What was read of a store.
#[derive(Clone, Copy)]
pub(crate) struct Seen {
    /// How many whole pages it has.
    pub(crate) count: u64,
    pub(crate) zeroth: SlotRead,
    pub(crate) first: SlotRead,
}

/// The current header, and what was seen beside it.
#[derive(Clone, Copy)]
pub(crate) struct Found {
    /// The slot where it stands: 0 or 1.
    pub(crate) slot: u64,
    pub(crate) header: Header,
    /// How many whole pages there are.
    pub(crate) count: u64,
    /// The gate of the other slot is closed.
    pub(crate) closed: bool,
}

impl SlotRead {
    ghost use Rattle.pm_shadow.specs.Attaching.{is_on};
    ghost use Rattle.std.specs.Prelude.{◌≡◌};
    ghost use Rattle.pm_layout.specs.Reading.{number_from};

    fn is_open(&self) -> bool
        ensures { result ≡ is_on self.now }
    {
        self.gate == OPEN
    }

    /// The epoch, whether a header stands there or not.
    fn epoch(&self) -> u32
        ensures { result ≡ number_from 4 self.now.body 12 }
    {
        BigEndian::read_u32(&self.body[12..])
    }
}

impl Seen {
    ghost use Rattle.std.specs.Prelude.{◌≡◌, ◌<◌, not, IfOk, IfErr, IfSome, Ok, Err};
    ghost use Rattle.pm_shadow.specs.State.{other};
    ghost use Rattle.pm_layout.specs.Headers.{HasHeaderSpelling};
    ghost use Rattle.pm_shadow.specs.Attaching.{is_on, picked_in, slot_in, header_seen};

    /// The slot of the current header: the one that is open, and of two the one of the greater epoch, and of
    /// equal epochs slot 0.
    fn picked(&self) -> Option<u64>
        ensures picked { result ≡ picked_in self.now }
        ensures slot { IfSome result (λ slot. slot < 2) }
    {
        match (self.zeroth.is_open(), self.first.is_open()) {
            (true, true) => Some(later(self.zeroth.epoch(), self.first.epoch())),
            (true, false) => Some(0),
            (false, true) => Some(1),
            (false, false) => None,
        }
    }

    /// One of the slots.
    fn slot(&self, slot: u64) -> SlotRead
        ensures { result ≡ slot_in self.now slot }
    {
        if slot == 0 { self.zeroth } else { self.first }
    }

    /// The current header, or the first rule that fails.
    pub(crate) fn current(&self) -> Result<Found, OpenFault>
        ensures ok { IfOk result (λ found. header_seen self.now (picked_in self.now) ≡ Ok
            (record { slot = found.slot; header = found.header })) }
        ensures err { IfErr result (λ fault. header_seen self.now (picked_in self.now) ≡ Err fault) }
        ensures slot { IfOk result (λ found. found.slot < 2) }
        ensures count { IfOk result (λ found. found.count ≡ self.now.count) }
        ensures closed { IfOk result (λ found. found.closed ≡ not (is_on (slot_in self.now (other found.slot)))) }
        ensures spelled { IfOk result (λ found. HasHeaderSpelling found.header) }
    {
        let Some(slot) = self.picked() else {
            return Err(OpenFault::NotAStore);
        };
        let header = sound(self.count, slot, &self.slot(slot).body)?;
        Ok(Found {
            slot,
            header,
            count: self.count,
            closed: !self.slot(1 - slot).is_open(),
        })
    }
}

/// The slot of the greater epoch.
fn later(zeroth: u32, first: u32) -> u64
    ensures later { result ≡ greater_slot zeroth first }
    ensures slot { result < 2 }
{
    if zeroth < first { 1 } else { 0 }
}

/// What a fault of a header is for the store.
fn refusal(slot: u64, fault: HeaderFault) -> OpenFault
    ensures { result ≡ header_refusal slot fault }
{
    match fault {
        HeaderFault::Magic => OpenFault::NotAStore,
        HeaderFault::Version(version) => OpenFault::Version(version),
        HeaderFault::Digest { kept, found } => OpenFault::Damaged {
            page: slot,
            kept,
            found,
        },
        HeaderFault::Next => OpenFault::Malformed { page: slot, at: 16 },
    }
}

/// The header that stands in a slot of a store of so many pages, or the first rule that fails.
fn sound(count: u64, slot: u64, body: &[u8; 96]) -> Result<Header, OpenFault>
    ensures ok { IfOk result (λ header. sound_header count slot (header_at body.now) ≡ Ok
        (record { slot = slot; header = header })) }
    ensures err { IfErr result (λ fault. sound_header count slot (header_at body.now) ≡ Err fault) }
    ensures spelled { IfOk result HasHeaderSpelling }
{
    match read_header(body) {
        Err(fault) => Err(refusal(slot, fault)),
        Ok(header) => {
            if header.first < 2 || header.first >= count {
                return Err(OpenFault::Malformed { page: slot, at: 24 });
            }
            Ok(header)
        }
    }
}
