//! What is made of the page of a car, once it was read.

ghost use Rattle.std.specs.Prelude.{◌≡◌, IfOk, length};
ghost use Rattle.std.specs.FinSet as set;
ghost use Rattle.pm_types.specs.declared.limits.TheConstants.{FIELDS, PAGE_BYTES};
ghost use Rattle.pm_image.specs.declared.settled.KeptPage.{KeptPage};
ghost use Rattle.pm_image.specs.CarPages.{HasCarPage, car_spelling, one_car, padded};

use crate::settled::{PackedCar, PackedPage};
use pm_image::KeptPage;
use pm_types::NoMemory;
use std::alloc::Global;

/// What is made of the page of a car, once it was read: the car packed (`PackedPage`), or nothing (`Unpacked`).
pub trait FromPage: Drop {
    /// What it has of the car, with its page.
    ghost is_of: { Self → KeptPage → Type 0 };

    /// Makes it of this car and of the bytes of its page, which are lent.
    ///
    /// # Errors
    ///
    /// `NoMemory` where memory ran out.
    fn from_page(alloc: Global, kept: &KeptPage, page: &[u8]) -> Result<Self, NoMemory>
        requires has { HasCarPage (one_car FIELDS) set.empty kept.now.image }
        requires page { page.now ≡ padded (car_spelling kept.now.image) }
        requires whole { length page.now ≡ PAGE_BYTES }
        ensures { IfOk result (λ made. is_of made kept.now) };
}

/// The car, packed of the bytes of its page.
impl FromPage for PackedPage {
    ghost is_of = { λ packed kept. packed ≡ kept };

    fn from_page(alloc: Global, kept: &KeptPage, page: &[u8]) -> Result<PackedPage, NoMemory> {
        let image = &kept.image;
        let car = PackedCar::pack(alloc, image.number, image.slots.as_slice(), page)?;
        Ok(PackedPage::new(car, kept.page, kept.digest))
    }
}

/// Nothing is made of the page of a car. It takes no memory.
#[derive(Clone, Copy, Debug)]
pub struct Unpacked;

impl FromPage for Unpacked {
    ghost is_of = { λ unpacked kept. Unit {0} };

    fn from_page(_alloc: Global, _kept: &KeptPage, _page: &[u8]) -> Result<Unpacked, NoMemory> {
        Ok(Unpacked)
    }
}
