//! The page of a car, and the car packed.

ghost use Rattle.std.specs.Prelude.{◌≡◌, length, IfOk};
ghost use Rattle.std.specs.FinSet as set;
ghost use Rattle.pm_types.specs.declared.limits.TheConstants.{FIELDS, PAGE_BYTES};
ghost use Rattle.pm_image.specs.CarPages.{HasCarPage, one_car};
ghost use Rattle.pm_saving.specs.Paging.{car_text};

use pm_graphs::settled::PackedCar;
use pm_image::write_slots;
use pm_types::{NoMemory, Slot};
use std::alloc::Global;

/// A car's page, and the car packed.
#[derive(Drop)]
pub struct CarPage {
    /// The car.
    pub car: PackedCar,
    /// What its page spells: 16,384 bytes.
    pub bytes: Vec<u8>,
}

/// The page of the car of this number with these slots, which are lent.
///
/// # Errors
///
/// `NoMemory` where memory ran out.
pub fn spell(alloc: Global, number: u64, slots: &[(u32, Slot)]) -> Result<CarPage, NoMemory>
    requires { HasCarPage (one_car FIELDS) set.empty (record { number = number; slots = slots.now }) }
    ensures car { IfOk result (λ page. page.car ≡ record { number = number; slots = slots.now }) }
    ensures text { IfOk result (λ page. page.bytes.items
        ≡ car_text (record { number = number; slots = slots.now })) }
    ensures whole { IfOk result (λ page. length page.bytes.items ≡ PAGE_BYTES) }
{
    let bytes = write_slots(alloc, number, slots)?;
    let car = PackedCar::pack(alloc, number, slots, &bytes)?;
    Ok(CarPage { car, bytes })
}
