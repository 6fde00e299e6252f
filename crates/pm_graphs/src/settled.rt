//! Cars as the used bytes of their pages: how they are packed, and compared with the slots of a car.

mod behind;
mod car;
mod known;
mod matching;
mod page;

pub use car::PackedCar;
pub use page::{PackedPage, PackedPages};
