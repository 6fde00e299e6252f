//! The slots that the cars of a store list, and where the addresses lead that name them.

ghost use Rattle.std.specs.Prelude.{◌≡◌, IfOk, OnOk};
ghost use Rattle.pm_graphs.specs.Linking.{no_leads, with_lead, lead_slots, lead_cars, lead_in, lead_at, may_name, resolved_by};

use pm_image::{KeptPage, NumberSet};
use pm_types::{Addr, NoMemory, Numbered, Slot};
use std::alloc::Global;

/// The slots that a car lists. It takes a byte for each number up to the last slot, and an address for each Moved one.
#[derive(Drop)]
pub struct SlotLeads {
    /// Those in which an object stands.
    pub(crate) live: NumberSet,
    /// Where the objects of the others went.
    pub(crate) moved: Numbered<Addr>,
}

/// The listed slots of cars, at their numbers.
pub type Leads = Numbered<SlotLeads>;

// Where the object of a slot went, or none where it stands, if the slot is listed.
fn lead_in(leads: &SlotLeads, slot: u32) -> Option<Option<Addr>>
    ensures { result ≡ lead_in leads.now slot }
{
    if leads.live.contains(slot as u64) {
        return Some(None);
    }
    match leads.moved.get(slot as u64) {
        Some(to) => Some(Some(*to)),
        None => None,
    }
}

// The same of the slot that an address names.
fn find(leads: &Leads, at: Addr) -> Option<Option<Addr>>
    ensures { result ≡ lead_at leads.now at }
{
    match leads.get(at.car) {
        Some(slots) => lead_in(slots, at.slot),
        None => None,
    }
}

/// The address names a slot of a kind that it may: one with an object, or one that is listed.
pub(crate) fn may_name(leads: &Leads, to: Addr, to_live: bool) -> bool
    ensures { result ≡ may_name leads.now to to_live }
{
    let found = find(leads, to);
    if to_live {
        matches!(found, Some(None))
    } else {
        found.is_some()
    }
}

/// Where an address leads, through at most one Moved slot.
pub fn resolve(leads: &Leads, at: Addr) -> Addr
    ensures { result ≡ resolved_by leads.now at }
{
    match find(leads, at) {
        Some(Some(to)) => to,
        Some(None) => at,
        None => at,
    }
}

// No slot. It takes no memory.
fn no_leads(alloc: Global) -> SlotLeads
    ensures { result ≡ no_leads }
{
    SlotLeads {
        live: NumberSet::new(alloc),
        moved: Numbered::new(alloc),
    }
}

// One slot more.
fn put_lead(leads: &mut SlotLeads, number: u32, slot: &Slot) -> Result<(), NoMemory>
    ensures { OnOk result (leads.new ≡ with_lead leads.old (number, slot.now)) }
{
    match slot {
        Slot::Live(_) => leads.live.insert(number as u64)?,
        Slot::Moved(to) => leads.moved.insert(number as u64, *to)?,
    }
    Ok(())
}

// The slots of a car.
fn lead_slots(alloc: Global, slots: &[(u32, Slot)]) -> Result<SlotLeads, NoMemory>
    ensures { IfOk result (λ leads. leads ≡ lead_slots slots.now) }
{
    let mut leads = no_leads(alloc);
    let mut left = slots.len();
    while left > 0 {
        left -= 1;
        let (number, slot) = &slots[left];
        put_lead(&mut leads, *number, slot)?;
    }
    Ok(leads)
}

/// The listed slots of these cars. Of cars with one number the first counts.
pub(crate) fn lead_cars(alloc: Global, cars: &[KeptPage]) -> Result<Leads, NoMemory>
    ensures { IfOk result (λ leads. leads ≡ lead_cars cars.now) }
{
    let mut leads = Leads::expecting(alloc, cars.len());
    let mut left = cars.len();
    while left > 0 {
        left -= 1;
        let image = &cars[left].image;
        leads.insert(image.number, lead_slots(alloc, image.slots.as_slice())?)?;
    }
    Ok(leads)
}
