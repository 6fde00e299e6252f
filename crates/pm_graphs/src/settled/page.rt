//! The cars of a settled copy, packed.

ghost use Rattle.std.specs.Prelude.{◌≡◌};

use crate::settled::PackedCar;
use pm_types::Items;
use std::marker::Model;

/// A car of a settled copy, packed, and the page where it stands. It is seen as a `KeptPage` of that car.
#[derive(Debug, Drop)]
pub struct PackedPage {
    car: PackedCar,
    page: u64,
    digest: [u8; 32],
}

impl Model for PackedPage {
    ghost use Rattle.pm_image.specs.declared.settled.KeptPage.{KeptPage};

    ghost Value = { KeptPage };

    ghost view = { λ it. record { image = it.car; page = it.page; digest = it.digest } };
}

impl PackedPage {
    /// This car on this page, counted from 0, which has this SHA-256.
    pub fn new(car: PackedCar, page: u64, digest: [u8; 32]) -> PackedPage
        ensures { result ≡ record { image = car; page = page; digest = digest } }
    {
        PackedPage { car, page, digest }
    }

    /// The car.
    pub fn car(&self) -> &PackedCar
        ensures { result.now ≡ self.now.image }
    {
        &self.car
    }

    /// The page, counted from 0.
    pub fn page(&self) -> u64
        ensures { result ≡ self.now.page }
    {
        self.page
    }

    /// The SHA-256 of the page.
    pub fn digest(&self) -> [u8; 32]
        ensures { result ≡ self.now.digest }
    {
        self.digest
    }
}

/// The cars of a settled copy, packed, seen as a list of `KeptPage`s, in the order of its catalog.
pub type PackedPages = Items<PackedPage>;
