ghost use Rattle.std.specs.Prelude.{◌≡◌, ℕ, ◌^◌, ◌<◌, ◌≤◌, List, length, Ok, true};
ghost use Rattle.pm_types.specs.declared.limits.TheConstants.{PAGE_BYTES};
ghost use Rattle.pm_image.specs.declared.car.CarImage.{CarImage};
ghost use Rattle.pm_image.specs.CarPages.{CarScope, Numbers, HasCarPage, car_at, car_spelling, is_named, padded};
ghost use Rattle.pm_image.specs.CarAnswers.{IsCarInRange, AreBytes};

/// The laws of cars' pages, at any limit on the fields of an object that two bytes can count, and
/// whichever identities were met before.
pub fn car_pages_are_read_again()
    // What is written is read again.
    ensures again { (scope : CarScope) (met : Numbers) (car : CarImage) → scope.most < 2 ^ 16
        → HasCarPage scope met car → IsCarInRange car → is_named scope.number car.number ≡ true
        → car_at scope met (padded (car_spelling car)) ≡ Ok car }
    // What is read is spelled so, and nothing else is.
    ensures found { (scope : CarScope) (met : Numbers) (page : List ℕ) (car : CarImage) → length page ≡ PAGE_BYTES
        → AreBytes page → car_at scope met page ≡ Ok car → page ≡ padded (car_spelling car) }
    // What is read has a page.
    ensures fits { (scope : CarScope) (met : Numbers) (page : List ℕ) (car : CarImage) → length page ≡ PAGE_BYTES
        → AreBytes page → car_at scope met page ≡ Ok car → HasCarPage scope met car }
    // What is read has the number that was expected.
    ensures named { (scope : CarScope) (met : Numbers) (page : List ℕ) (car : CarImage) → length page ≡ PAGE_BYTES
        → AreBytes page → car_at scope met page ≡ Ok car → is_named scope.number car.number ≡ true }
{}

/// A car's page that is read within one limit on the fields of an object is read alike within a greater one.
pub fn limits_of_cars_may_grow()
    ensures { (scope : CarScope) (more : ℕ) (met : Numbers) (page : List ℕ) (car : CarImage) → scope.most ≤ more
        → car_at scope met page ≡ Ok car → car_at (record scope { most = more }) met page ≡ Ok car }
{}
