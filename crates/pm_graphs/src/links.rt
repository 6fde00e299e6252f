//! Whether each address of a store leads where it may.

ghost use Rattle.std.specs.Prelude.{◌≡◌, ◌∷◌, [], ◌+◌, ◌*◌, ◌≤◌, ℕ, length};
ghost use Rattle.std.specs.List.{AllByRecursion, flat_map};
ghost use Rattle.pm_types.specs.declared.limits.TheConstants.{FIELDS, PAGE_BYTES, CAR_HEAD_BYTES};
ghost use Rattle.pm_types.specs.declared.object.Slot.{Slot};
ghost use Rattle.pm_layout.specs.Spelling.{IsWithinLimits, slot_size};
ghost use Rattle.pm_image.specs.declared.catalog.CatalogPage.{CatalogPage};
ghost use Rattle.pm_image.specs.declared.settled.KeptPage.{KeptPage};
ghost use Rattle.pm_image.specs.CarPages.{car_used};
ghost use Rattle.pm_image.specs.CatalogPages.{catalog_used, entry_size};
ghost use Rattle.pm_image.specs.Graphs.{images_of, field_sites, slot_sites, record_sites, root_sites, sites_of, linked};
ghost use Rattle.pm_graphs.specs.Linking.{led, linked_by};
ghost use Rattle.pm_graphs.specs.Reading.{IsMeasured};

use crate::fault::Place;
use crate::leads::{Leads, may_name};
use crate::mapped_cars::MappedCars;
use pm_image::{
    CAR_ENTRY_BYTES, CatEntry, CatalogPage, ENTRIES, KeptPage, RECORDS_AT, ROOT_ENTRY_BYTES,
};
use pm_layout::size;
use pm_types::{Addr, Slot};

// The address that stands at this place of a page leads where it may.
#[tactic(auto, unfolding(crate::specs::Linking::linked_by))]
fn check_site(leads: &Leads, page: u64, at: u32, to: Addr, to_live: bool) -> Result<(), Place>
    ensures { led result ≡ linked_by leads.now (record { page = page; at = at; to = to; to_live = to_live } ∷ []) }
{
    if may_name(leads, to, to_live) {
        return Ok(());
    }
    Err(Place { page, at })
}

// The field that stands at this place does.
#[tactic(auto, unfolding(crate::specs::Linking::linked_by))]
fn check_field(leads: &Leads, page: u64, at: u32, field: &Option<Addr>) -> Result<(), Place>
    ensures { led result ≡ linked_by leads.now (field_sites page at (field.now ∷ [])) }
{
    match field {
        Some(to) => check_site(leads, page, at, *to, false),
        None => Ok(()),
    }
}

// Each field does, of which the first stands at this place.
fn check_fields(leads: &Leads, page: u64, start: u32, fields: &[Option<Addr>]) -> Result<(), Place>
    requires { start + 12 * length fields.now ≤ 2 * PAGE_BYTES }
    ensures { led result ≡ linked_by leads.now (field_sites page start fields.now) }
{
    let mut at = start;
    for field in fields {
        check_field(leads, page, at, field)?;
        at += 12;
    }
    Ok(())
}

// Each address of the record that begins at this place does.
fn check_record(leads: &Leads, page: u64, at: u32, slot: &Slot) -> Result<(), Place>
    requires { at + 4 + slot_size slot.now ≤ 2 * PAGE_BYTES }
    ensures { led result ≡ linked_by leads.now (slot_sites page at slot.now) }
{
    match slot {
        Slot::Live(object) => check_fields(leads, page, at + 17, object.fields.as_slice()),
        Slot::Moved(to) => check_site(leads, page, at + 5, *to, true),
    }
}

// Each address of a car's page does.
fn check_records(leads: &Leads, page: u64, slots: &[(u32, Slot)]) -> Result<(), Place>
    requires fits { car_used slots.now ≤ PAGE_BYTES }
    requires within { AllByRecursion (λ (entry : ℕ × Slot). IsWithinLimits FIELDS entry.1) slots.now }
    ensures { led result ≡ linked_by leads.now (record_sites page CAR_HEAD_BYTES slots.now) }
{
    let mut at = RECORDS_AT as u32;
    for listed in slots {
        check_record(leads, page, at, &listed.1)?;
        at += 4 + size(&listed.1);
    }
    Ok(())
}

// Each address of these cars' pages does.
fn check_cars(leads: &Leads, cars: &[KeptPage]) -> Result<(), Place>
    requires { AllByRecursion IsMeasured cars.now }
    ensures { led result ≡ linked_by leads.now
        (flat_map (λ (kept : KeptPage). record_sites kept.page CAR_HEAD_BYTES kept.image.slots) cars.now) }
{
    for kept in cars {
        check_records(leads, kept.page, kept.image.slots.as_slice())?;
    }
    Ok(())
}

// How many bytes an entry is spelled in.
fn entry_bytes(entry: &CatEntry) -> u32
    ensures { result ≡ entry_size entry.now }
{
    match entry {
        CatEntry::Car { .. } => CAR_ENTRY_BYTES as u32,
        CatEntry::Root { name, .. } => ROOT_ENTRY_BYTES as u32 + name.as_slice().len() as u32,
    }
}

// The address of the root that stands at this place leads where it may, if the entry is one.
#[tactic(auto, unfolding(crate::specs::Linking::linked_by))]
fn check_root(leads: &Leads, page: u64, at: u32, entry: &CatEntry) -> Result<(), Place>
    requires { at + entry_size entry.now ≤ 2 * PAGE_BYTES }
    ensures { led result ≡ linked_by leads.now (root_sites page at (entry.now ∷ [])) }
{
    match entry {
        CatEntry::Car { .. } => Ok(()),
        CatEntry::Root { name, at: to } => {
            check_site(
                leads,
                page,
                at + 2 + name.as_slice().len() as u32,
                *to,
                false,
            )
        }
    }
}

// The address of each root of a catalog page does.
fn check_roots(leads: &Leads, page: u64, entries: &[CatEntry]) -> Result<(), Place>
    requires { catalog_used entries.now ≤ PAGE_BYTES }
    ensures { led result ≡ linked_by leads.now (root_sites page ENTRIES entries.now) }
{
    let mut at = ENTRIES as u32;
    for entry in entries {
        check_root(leads, page, at, entry)?;
        at += entry_bytes(entry);
    }
    Ok(())
}

// The address of each root of a catalog does.
fn check_catalog(leads: &Leads, catalog: &[(u64, CatalogPage)]) -> Result<(), Place>
    requires { AllByRecursion (λ (page : ℕ × CatalogPage). catalog_used page.1.entries ≤ PAGE_BYTES) catalog.now }
    ensures { led result ≡ linked_by leads.now
        (flat_map (λ (page : ℕ × CatalogPage). root_sites page.0 ENTRIES page.1.entries) catalog.now) }
{
    for page in catalog {
        check_roots(leads, page.0, page.1.entries.as_slice())?;
    }
    Ok(())
}

/// Each address of a catalog and of these cars leads where it may, by what they list: that of a Moved slot to an object,
/// each other one to a slot that is listed. Else the place of the first that does not, in the order of cars, records and
/// fields, and then of roots.
pub(crate) fn check_links(catalog: &[(u64, CatalogPage)], cars: &MappedCars) -> Result<(), Place>
    requires catalog { AllByRecursion
        (λ (page : ℕ × CatalogPage). catalog_used page.1.entries ≤ PAGE_BYTES) catalog.now }
    requires cars { AllByRecursion IsMeasured cars.now }
    ensures { led result ≡ linked (images_of cars.now) (sites_of catalog.now cars.now) }
{
    let leads = cars.leads();
    check_cars(leads, cars.as_slice())?;
    check_catalog(leads, catalog)
}
