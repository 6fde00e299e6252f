ghost use Rattle.std.specs.Prelude.{◌≡◌, IfOk};

use pm_types::NoMemory;
use std::alloc::Global;

/// What a table can hold: a value that can be had again.
pub trait Keep {
    /// A value that equals this one.
    fn keep(&self, alloc: Global) -> Result<Self, NoMemory>
        ensures { IfOk result (λ kept. kept ≡ self.now) };
}
