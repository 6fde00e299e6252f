ghost use Rattle.std.specs.Prelude.{◌≡◌, ℕ, ◌<◌, true, IsSome, OnOk};
ghost use Rattle.std.specs.FinMap as map;
ghost use Rattle.pm_snap.specs.Snapped.{is_ready};
ghost use Rattle.pm_space.specs.Shown.{cars_of, HasBirthRoom, KeepsReady};

use crate::held::Held;
use crate::parts::Parts;
use pm_snap::Table;
use pm_types::NoMemory;

/// Makes a car that stands ready, until the cars are frozen: to change it or to take it out then succeeds and
/// takes no memory. What the cars hold stays, what is frozen stays, and each car that is ready stays so, also
/// after want of memory.
pub fn make_ready(cars: &mut Table<Held>, car: u64) -> Result<(), NoMemory>
    requires there { IsSome (map.get cars.old.current car) }
    ensures current { cars.new.current ≡ cars.old.current }
    ensures frozen { cars.new.frozen ≡ cars.old.frozen }
    ensures ready { OnOk result (is_ready cars.new car ≡ true) }
    ensures others { KeepsReady cars.old cars.new }
{
    cars.change(car)?;
    Ok(())
}

/// Makes a car that stands ready, with room for one birth. What is seen of the cars stays, what is frozen
/// stays, each car that is ready stays so, and each that has room for a birth keeps it, also after want of
/// memory.
pub fn make_room_for_birth(cars: &mut Table<Held>, car: u64) -> Result<(), NoMemory>
    requires there { IsSome (map.get cars.old.current car) }
    ensures cars { cars_of cars.new ≡ cars_of cars.old }
    ensures frozen { cars.new.frozen ≡ cars.old.frozen }
    ensures ready { OnOk result (is_ready cars.new car ≡ true) }
    ensures room { OnOk result (HasBirthRoom cars.new car) }
    ensures others { KeepsReady cars.old cars.new }
    ensures births { (other : ℕ) → HasBirthRoom cars.old other → HasBirthRoom cars.new other }
{
    let held = cars.change(car)?;
    held.car.reserve()
}
