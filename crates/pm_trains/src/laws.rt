ghost use Rattle.std.specs.Prelude.{◌≡◌, ◌↔◌, ◌+◌, ◌^◌, [], ℕ, List, Some, None, IsSome};
ghost use Rattle.pm_trains.specs.declared.trains.TheConstants.{BIRTHS, MOST_TRAINS};
ghost use Rattle.pm_trains.specs.Trains.{Train, Trains as Shown, cars_at, train_of, oldest, youngest, first_car, appended, without_first, rotated};
ghost use Rattle.pm_trains.specs.Sound.{AreSoundTrains, all_cars};
ghost use Rattle.pm_trains.specs.Changes.{StandsIn, NoneOlder, NoneYounger, cars_with, cars_without_first, cars_with_open, HomesWith, HomesWithout};

/// A law of limits: the most objects that are born in one train, and the number of a train behind which none is opened.
pub fn limits_of_trains()
    ensures births { BIRTHS ≡ 1024 }
    ensures trains { MOST_TRAINS ≡ 2 ^ 62 }
{}

/// A law of trains: a car is found in a train exactly where it is one of that train's cars.
pub fn a_car_is_found_where_it_stands()
    ensures { (t : Shown) (car n : ℕ) → AreSoundTrains t → (train_of t.trains car ≡ Some n) ↔ StandsIn t.trains car n }
{}

/// A law of trains: the oldest train with a car is the least number of a train that has one, and there
/// is none exactly where no car stands.
pub fn the_oldest_is_the_least_with_a_car()
    ensures least { (t : Shown) (old : ℕ) → AreSoundTrains t → oldest t.trains ≡ Some old → NoneOlder t.trains old }
    ensures none { (t : Shown) → (oldest t.trains ≡ None) ↔ (all_cars t.trains ≡ []) }
{}

/// A law of trains: no train has a greater number than the youngest.
pub fn the_youngest_is_the_greatest()
    ensures { (t : Shown) → AreSoundTrains t → NoneYounger t.trains (youngest t.trains) }
{}

/// A law of an appended car: it is the last of its train, and every other train has the cars that it
/// had. The car is found in that train, and every other car where it was. The youngest train stays the
/// youngest.
pub fn an_appended_car_is_the_last()
    ensures cars { (ts : List Train) (n car m : ℕ) → cars_at (appended n car ts) m ≡ cars_with ts n car m }
    ensures home { (ts : List Train) (n car : ℕ) → IsSome (cars_at ts n) → train_of ts car ≡ None → HomesWith ts n car }
    ensures youngest { (ts : List Train) (n car : ℕ) → youngest (appended n car ts) ≡ youngest ts }
{}

/// A law of a removed first car: its train has the rest, or goes where there is no rest and it is not
/// the youngest, and every other train has the cars that it had. The car is found in no train, and
/// every other car where it was. The youngest train stays the youngest.
pub fn a_removed_car_was_the_first()
    ensures cars { (t : Shown) (n m : ℕ) → AreSoundTrains t
        → cars_at (without_first n t.trains) m ≡ cars_without_first t.trains n m }
    ensures home { (t : Shown) (n car : ℕ) → AreSoundTrains t → first_car t.trains n ≡ Some car
        → HomesWithout t.trains n car }
    ensures youngest { (t : Shown) (n : ℕ) → youngest (without_first n t.trains) ≡ youngest t.trains }
{}

/// A law of a new open train: it is the youngest and has no car, and every other train has the cars
/// that it had. Every car is found where it was.
pub fn a_new_train_is_the_youngest()
    ensures cars { (t : Shown) (n : ℕ) → AreSoundTrains t → cars_at (rotated t.trains) n ≡ cars_with_open t.trains n }
    ensures home { (ts : List Train) (car : ℕ) → train_of (rotated ts) car ≡ train_of ts car }
    ensures youngest { (ts : List Train) → youngest (rotated ts) ≡ youngest ts + 1 }
{}
