//! A car as its page spells it.

use pm_types::{CAR_HEAD_BYTES, Items, Slot};

/// The four bytes that a car's page begins with, `PCAR`.
pub(crate) const MAGIC: [u8; 4] = [0x50, 0x43, 0x41, 0x52];

/// The place of the first record in a car's page.
pub const RECORDS_AT: usize = CAR_HEAD_BYTES as usize;

/// The slots that a car's page lists: slot numbers, 0 to 65,535, each with its slot.
pub type SlotList = Items<(u32, Slot)>;

/// What a car's page says: the car's number, and its Live and Moved slots in ascending order. A slot that
/// is not listed is Gone.
#[derive(Debug, Drop)]
pub struct CarImage {
    /// The number of the car.
    pub number: u64,
    /// Its slots.
    pub slots: SlotList,
}
