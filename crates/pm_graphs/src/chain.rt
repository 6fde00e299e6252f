//! The pages of a catalog.

use pm_image::CatalogPage;
use pm_types::Items;

/// The pages of a catalog with their numbers, in the order of their links.
pub type Chain = Items<(u64, CatalogPage)>;
