//! The cars of a settled copy.

use crate::CarImage;
use pm_types::Items;

/// A car of a settled copy, and the page where it stands.
#[derive(Debug, Drop)]
pub struct KeptPage {
    /// The car, as the page spells it.
    pub image: CarImage,
    /// The page, counted from 0.
    pub page: u64,
    /// The SHA-256 of the page.
    pub digest: [u8; 32],
}

/// The cars of a settled copy, in the order of its catalog.
pub type Settled = Items<KeptPage>;
