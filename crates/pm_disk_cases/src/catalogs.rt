//! Pages of catalogs that are read and written.

ghost use Rattle.std.specs.Prelude.{◌≡◌, length, None};
ghost use Rattle.pm_types.specs.declared.limits.TheConstants.{PAGE_BYTES};
ghost use Rattle.pm_image.specs.CatalogPages.{HasCatalogPage, nothing_met};

use crate::spelling::{push_again, push_around};
use pm_case_text::{Fault, push_filled, push_said, push_value_line, refuse, two_numbers};
use pm_image::{CatEntry, CatalogPage, Met, read_catalog, read_catalog_in, write_catalog};
use pm_types::{Addr, Name, PAGE_BYTES};
use std::alloc::Global;

// Whether the page is written so again.
fn is_again(alloc: Global, page: &[u8], read: &CatalogPage) -> Result<bool, Fault>
    requires { HasCatalogPage None nothing_met read.now }
{
    match write_catalog(alloc, read) {
        Ok(written) => Ok(written.as_slice() == page),
        Err(_) => Err(refuse("no memory")),
    }
}

// Adds what a page says of the next one, how many entries it has, and whether it is written so again.
fn push_found(alloc: Global, page: &[u8], read: &CatalogPage, out: &mut String) -> Result<(), Fault>
    requires { HasCatalogPage None nothing_met read.now }
{
    let entries = read.entries.as_slice().len() as u64;
    push_around(
        alloc,
        "next %, digest ",
        &[read.next],
        &read.digest,
        ", ",
        out,
    )?;
    push_filled("entries %, written ", &[entries], out)?;
    push_again(is_again(alloc, page, read), out)
}

/// The page of a catalog.
pub(crate) fn push_catalog(alloc: Global, page: &[u8], out: &mut String) -> Result<(), Fault>
    requires { length page.now ≡ PAGE_BYTES }
{
    match read_catalog(alloc, page) {
        Ok(read) => push_found(alloc, page, &read, out),
        Err(fault) => push_value_line(&fault, out),
    }
}

// Adds a root.
fn push_root(alloc: Global, name: &Name, at: Addr, out: &mut String) -> Result<(), Fault> {
    push_around(alloc, "root ", &[], name.as_slice(), ", ", out)?;
    push_value_line(&at, out)
}

// Adds an entry.
fn push_entry(alloc: Global, entry: &CatEntry, out: &mut String) -> Result<(), Fault> {
    match entry {
        CatEntry::Car {
            car,
            train,
            page,
            digest,
        } => {
            let text = "car %, train %, page %, digest ";
            push_around(alloc, text, &[*car, *train, *page], digest, "\n", out)
        }
        CatEntry::Root { name, at } => push_root(alloc, name, *at, out),
    }
}

// Adds the entries of a page.
fn push_all(alloc: Global, read: &CatalogPage, out: &mut String) -> Result<(), Fault> {
    for entry in read.entries.as_slice() {
        push_entry(alloc, entry, out)?;
    }
    Ok(())
}

/// Its entries.
pub(crate) fn push_entries(alloc: Global, page: &[u8], out: &mut String) -> Result<(), Fault>
    requires { length page.now ≡ PAGE_BYTES }
{
    match read_catalog(alloc, page) {
        Ok(read) => push_all(alloc, &read, out),
        Err(fault) => push_value_line(&fault, out),
    }
}

// The page of a catalog in a store of so many pages, where this was met.
fn push_read_in(
    alloc: Global,
    page: &[u8],
    count: u64,
    met: &mut Met,
    out: &mut String,
) -> Result<(), Fault>
    requires { length page.now ≡ PAGE_BYTES }
{
    match read_catalog_in(alloc, page, count, met) {
        Ok(read) => push_said("entries", read.entries.as_slice().len() as u64, out),
        Err(fault) => push_value_line(&fault, out),
    }
}

// The page of a catalog that begins with this page, in a store of so many pages.
fn push_beginning_at(
    alloc: Global,
    page: &[u8],
    count: u64,
    first: u64,
    out: &mut String,
) -> Result<(), Fault>
    requires { length page.now ≡ PAGE_BYTES }
{
    match Met::beginning_at(alloc, first) {
        Ok(mut met) => push_read_in(alloc, page, count, &mut met, out),
        Err(_) => Err(refuse("no memory")),
    }
}

/// `COUNT FIRST`: the page of a catalog that begins with the page FIRST, in a store of so many pages.
pub(crate) fn push_catalog_in(
    alloc: Global,
    page: &[u8],
    text: &str,
    out: &mut String,
) -> Result<(), Fault> {
    match two_numbers(text) {
        Ok((count, first)) if page.len() == PAGE_BYTES => {
            push_beginning_at(alloc, page, count, first, out)
        }
        _ => Err(refuse("no page")),
    }
}
