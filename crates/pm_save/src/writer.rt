//! The writer of copies: it begins a copy, writes it page by page, and settles it or gives it up.

mod beginning;
mod dropping;
mod flushing;
mod settling;
mod writer;

pub use crate::progress::{
    CarPage, Frozen, Place, PlacedCar, SaveFault, a_copy_begins_beside_the_settled_one,
    a_published_copy_is_the_settled_one, spell,
};
pub use writer::Writer;
