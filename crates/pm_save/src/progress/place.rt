//! A copy in progress, car by car.

use pm_graphs::settled::PackedPage;
use pm_types::{Addr, Name};

/// Where a car of the copy in progress stands.
#[derive(Debug, Drop)]
pub enum Place {
    /// On the page of the settled car at this place of the list, which has the same content.
    Clean(usize),
    /// On no page yet.
    Unwritten,
    /// On a page that was written for this copy.
    Written(PackedPage),
}

/// A car of the copy in progress.
#[derive(Debug, Drop)]
pub struct PlacedCar {
    /// The train in which it is listed.
    pub train: u64,
    /// Its number, from 1.
    pub number: u64,
    /// Where it stands.
    pub place: Place,
}

/// A copy in progress.
#[derive(Drop)]
pub struct InProgress {
    /// Its number.
    pub number: u32,
    /// Its cars, in the order of the list.
    pub cars: Vec<PlacedCar>,
    /// So many cars at the front all stand on a page.
    pub placed: usize,
    /// Its roots, in ascending order of their names.
    pub roots: Vec<(Name, Addr)>,
    /// Its next identity.
    pub next_id: u64,
    /// The pages of its clean cars are kept for it.
    pub kept: bool,
    /// How many entries each page of the catalog has that was not written, the first page first.
    pub counts: Vec<usize>,
    /// The pages of the catalog that were written, the last page of the catalog first. It has room for all.
    pub parts: Vec<u64>,
    /// The digest of the one that was written last; all 0 where none was.
    pub digest: [u8; 32],
    /// Room for the cars of the copy once it is settled.
    pub room: Vec<PackedPage>,
}
