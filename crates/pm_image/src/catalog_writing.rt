ghost use Rattle.std.specs.Prelude.{◌≡◌, ◌+◌, ◌≤◌, length, None, IfOk};
ghost use Rattle.std.specs.List.{flat_map};
ghost use Rattle.std.specs.Vec.{vec_len, vec_capacity};
ghost use Rattle.pm_types.specs.declared.limits.TheConstants.{PAGE_BYTES};
ghost use Rattle.pm_layout.specs.Room.{HasRoom, Appends};
ghost use Rattle.pm_image.specs.declared.catalog.CatEntry.TheVariants.{Car, Root};
ghost use Rattle.pm_image.specs.CarPages.{padded};
ghost use Rattle.pm_image.specs.CatalogPages.{nothing_met, entry_spelling, entry_size, catalog_used, catalog_spelling, HasCatalogPage};
ghost use Rattle.pm_image.specs.declared.catalog_kind.TheConstants.{ENTRIES, CAR_ENTRY_BYTES, ROOT_ENTRY_BYTES};

use crate::catalog_kind::{CAR, CATALOG_MAGIC, ROOT};
use crate::{CatEntry, CatalogPage};
use pm_layout::{put_address, put_bytes, put_u8, put_u16, put_u64};
use pm_types::{Addr, Name, NoMemory, PAGE_BYTES};
use std::alloc::Global;

// The entry of a car.
#[tactic(auto, using(crate::proofs::CatalogTakes::car_size), unfolding(crate::specs::CatalogPages::entry_spelling))]
fn put_car(out: &mut Vec<u8>, car: u64, train: u64, page: u64, digest: &[u8; 32])
    requires { HasRoom out.old CAR_ENTRY_BYTES }
    ensures text { Appends out.old out.new (entry_spelling (Car car train page digest.now)) }
    ensures sized { length (entry_spelling (Car car train page digest.now)) ≡ CAR_ENTRY_BYTES }
{
    put_u8(out, CAR);
    put_u64(out, car);
    put_u64(out, train);
    put_u64(out, page);
    put_bytes(out, digest);
}

// The entry of a root.
#[tactic(auto, using(crate::proofs::CatalogTakes::root_size), unfolding(crate::specs::CatalogPages::entry_spelling))]
fn put_root(out: &mut Vec<u8>, name: &Name, at: &Addr)
    requires { HasRoom out.old (ROOT_ENTRY_BYTES + length name.now) }
    ensures text { Appends out.old out.new (entry_spelling (Root name.now at.now)) }
    ensures sized { length (entry_spelling (Root name.now at.now)) ≡ ROOT_ENTRY_BYTES + length name.now }
{
    let bytes = name.as_slice();
    put_u8(out, ROOT);
    put_u8(out, bytes.len() as u8);
    put_bytes(out, bytes);
    put_address(out, at);
}

fn put_entry(out: &mut Vec<u8>, entry: &CatEntry)
    requires { HasRoom out.old (entry_size entry.now) }
    ensures text { Appends out.old out.new (entry_spelling entry.now) }
    ensures sized { length (entry_spelling entry.now) ≡ entry_size entry.now }
{
    match entry {
        CatEntry::Car {
            car,
            train,
            page,
            digest,
        } => put_car(out, *car, *train, *page, digest),
        CatEntry::Root { name, at } => put_root(out, name, at),
    }
}

fn put_entries(out: &mut Vec<u8>, entries: &[CatEntry])
    requires { vec_len out.old + catalog_used entries.now ≤ ENTRIES + vec_capacity out.old }
    ensures text { Appends out.old out.new (flat_map entry_spelling entries.now) }
    ensures sized { ENTRIES + vec_len out.new ≡ vec_len out.old + catalog_used entries.now }
{
    for entry in entries {
        put_entry(out, entry);
    }
}

/// The page that spells this: 16,384 bytes, of which those after the entries are 0.
#[tactic(auto, unfolding(crate::specs::CatalogPages::catalog_spelling))]
pub fn write_catalog(alloc: Global, page: &CatalogPage) -> Result<Vec<u8>, NoMemory>
    requires { HasCatalogPage None nothing_met page.now }
    ensures spelled { IfOk result (λ bytes. bytes.items ≡ padded (catalog_spelling page.now)) }
    ensures whole { IfOk result (λ bytes. length bytes.items ≡ PAGE_BYTES) }
{
    let entries = page.entries.as_slice();
    let mut out = Vec::with_capacity(alloc, PAGE_BYTES)?;
    put_bytes(&mut out, &CATALOG_MAGIC);
    put_u64(&mut out, page.next);
    put_bytes(&mut out, &page.digest);
    put_u16(&mut out, entries.len() as u16);
    put_entries(&mut out, entries);
    out.resize(PAGE_BYTES, 0)?;
    Ok(out)
}
