ghost use Rattle.std.specs.Prelude.{◌≡◌, IfOk};

use pm_cars::Car;
use pm_snap::Keep;
use pm_types::NoMemory;
use std::alloc::Global;

/// A car as the table of cars holds it.
#[derive(Drop)]
pub struct Held {
    pub car: Car,
}

impl Keep for Held {
    fn keep(&self, alloc: Global) -> Result<Held, NoMemory>
        ensures { IfOk result (λ kept. kept ≡ self.now) }
    {
        Ok(Held {
            car: self.car.copy(alloc)?,
        })
    }
}
