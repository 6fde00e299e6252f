//! A page of the catalog, which lists the cars and the roots of a copy.

use pm_types::{Addr, Items, Name};

/// An entry of a catalog.
#[derive(Debug, Drop)]
pub enum CatEntry {
    /// A car of the copy.
    Car {
        /// The number of the car, from 1.
        car: u64,
        /// The number of the train that it is in.
        train: u64,
        /// The page where it stands, counted from 0.
        page: u64,
        /// The SHA-256 of that page.
        digest: [u8; 32],
    },
    /// A root of the copy.
    Root {
        /// Its name.
        name: Name,
        /// The object that it stands for.
        at: Addr,
    },
}

/// The entries of a catalog page, in order.
pub type EntryList = Items<CatEntry>;

/// What a catalog page says.
#[derive(Debug, Drop)]
pub struct CatalogPage {
    /// The next page of the catalog, counted from 0; 0 where there is none.
    pub next: u64,
    /// The SHA-256 of the next page; all 0 where there is none.
    pub digest: [u8; 32],
    /// The entries of this page.
    pub entries: EntryList,
}
