//! Where the cars of a copy in progress come from.

ghost use Rattle.std.specs.Prelude.{◌≡◌, length, IfOk};
ghost use Rattle.std.specs.FinSet as set;
ghost use Rattle.pm_types.specs.declared.limits.TheConstants.{FIELDS, PAGE_BYTES};
ghost use Rattle.pm_view.specs.View.{Cars};
ghost use Rattle.pm_image.specs.CarPages.{HasCarPage, one_car};
ghost use Rattle.pm_saving.specs.Paging.{car_text};
ghost use Rattle.pm_saving.specs.Progress.{image_at};

use crate::progress::CarPage;
use pm_types::NoMemory;
use std::alloc::Global;

/// Cars by number, as they were when a copy of them was begun. They stay until it is settled or given up.
pub trait Frozen {
    /// The cars.
    ghost cars: { Self → Cars };

    /// The page of the car of this number, and the car packed; without a slot where there is none.
    fn page(&self, alloc: Global, number: u64) -> Result<CarPage, NoMemory>
        requires { HasCarPage (one_car FIELDS) set.empty (image_at (cars self.now) number) }
        ensures car { IfOk result (λ page. page.car ≡ image_at (cars self.now) number) }
        ensures text { IfOk result (λ page. page.bytes.items ≡ car_text (image_at (cars self.now) number)) }
        ensures whole { IfOk result (λ page. length page.bytes.items ≡ PAGE_BYTES) };
}
