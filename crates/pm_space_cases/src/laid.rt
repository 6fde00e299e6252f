//! A store that is laid out byte by byte.

ghost use Rattle.std.specs.Prelude.{◌≡◌, ◌⊎◌, ◌<◌, ◌≤◌};
ghost use Rattle.pm_types.specs.declared.limits.TheConstants.{END_ID};

use pm_case_text::{Fault, first_word, part, put, raw_bytes, refuse};
use pm_layout::{Header, digest, write_header};
use pm_types::{END_ID, PAGE_BYTES};
use std::alloc::Global;

// The place of the catalog's only page, behind those of the two headers.
const CATALOG: usize = 2 * PAGE_BYTES;

// Adds bytes.
fn add(to: &mut Vec<u8>, bytes: &[u8]) -> Result<(), Fault> {
    Ok(to.extend_from_slice(bytes)?)
}

// Adds bytes in pairs of hexadecimal digits.
fn add_hex(alloc: Global, to: &mut Vec<u8>, digits: &str) -> Result<(), Fault> {
    add(to, raw_bytes(alloc, digits)?.as_slice())
}

// The page that begins with these bytes and ends with zeros.
fn page_of(alloc: Global, digits: &str) -> Result<Vec<u8>, Fault> {
    let mut page = raw_bytes(alloc, digits)?;
    page.resize(PAGE_BYTES, 0)?;
    Ok(page)
}

// Adds a car's page to the disk, and its digest to the car's entry.
fn add_page(
    alloc: Global,
    disk: &mut Vec<u8>,
    entries: &mut Vec<u8>,
    digits: &str,
) -> Result<(), Fault> {
    let page = page_of(alloc, digits)?;
    add(disk, page.as_slice())?;
    add(entries, &digest(page.as_slice()))
}

// Adds an entry: that of a car has its page behind a space.
fn add_entry(
    alloc: Global,
    disk: &mut Vec<u8>,
    entries: &mut Vec<u8>,
    text: &str,
) -> Result<(), Fault> {
    let (entry, page) = first_word(text);
    add_hex(alloc, entries, entry)?;
    if page.is_empty() {
        return Ok(());
    }
    add_page(alloc, disk, entries, page)
}

// Adds the entries between ` / `, and answers how many there are.
fn add_entries(
    alloc: Global,
    disk: &mut Vec<u8>,
    entries: &mut Vec<u8>,
    text: &str,
) -> Result<u8, Fault> {
    let mut count = 0u8;
    for entry in text.split(" / ") {
        add_entry(alloc, disk, entries, entry)?;
        count = count.saturating_add(1);
    }
    Ok(count)
}

// Writes the catalog.
fn put_catalog(disk: &mut Vec<u8>, count: u8, entries: &[u8]) -> Result<(), Fault> {
    put(disk, CATALOG, b"PCAT")?;
    put(disk, CATALOG + 45, &[count])?;
    put(disk, CATALOG + 46, entries)
}

// Writes the first header: copy 5 stands behind it.
fn put_header(disk: &mut Vec<u8>, version: u32, next: u64) -> Result<(), Fault>
    requires version { (version ≡ 1) ⊎ (version ≡ 2) }
    requires some { 0 < next }
    requires last { next ≤ END_ID }
{
    let header = write_header(&Header {
        version,
        epoch: 5,
        next,
        first: 2,
        digest: digest(part(disk.as_slice(), CATALOG, PAGE_BYTES)?),
    });
    put(disk, 0, &header)?;
    put(disk, PAGE_BYTES - 1, &[0xa5])
}

// Writes the first header of the old or the new version.
fn put_version(disk: &mut Vec<u8>, old: bool) -> Result<(), Fault> {
    if old {
        put_header(disk, 1, 6)
    } else {
        put_header(disk, 2, 6)
    }
}

// Lays out all but the header.
fn lay_out(alloc: Global, disk: &mut Vec<u8>, text: &str) -> Result<(), Fault> {
    let mut entries = Vec::new(alloc);
    let count = add_entries(alloc, disk, &mut entries, text)?;
    put_catalog(disk, count, entries.as_slice())
}

/// The bytes of a store of the old or the new version, under copy 5 and with the next identity 6, of the one catalog page
/// that has these entries.
pub(crate) fn disk_of(alloc: Global, old: bool, text: &str) -> Result<Vec<u8>, Fault> {
    let mut disk = vec![in alloc; 0; 3 * PAGE_BYTES]?;
    lay_out(alloc, &mut disk, text)?;
    put_version(&mut disk, old)?;
    Ok(disk)
}

/// The bytes of a store of the new version, under copy 5 and with this next identity, in which nothing stands.
pub(crate) fn bare_disk(alloc: Global, next: u64) -> Result<Vec<u8>, Fault> {
    if next == 0 || next > END_ID {
        return Err(refuse("Step"));
    }
    let mut disk = vec![in alloc; 0; 3 * PAGE_BYTES]?;
    put_catalog(&mut disk, 0, &[])?;
    put_header(&mut disk, 2, next)?;
    Ok(disk)
}
