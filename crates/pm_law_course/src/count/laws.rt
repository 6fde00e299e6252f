//! Laws of counting. Each function's contract is a law, and the function does nothing.

ghost use Rattle.std.specs.Prelude.{◌≡◌, ◌≢◌, ◌<◌, ◌≤◌, ◌↔◌, ℕ, ◌+◌, ◌-◌, ◌*◌, true, nat_eq, List, length, Some, IsSome, IsSomeAnd};
ghost use Rattle.std.specs.List.{IsDistinct, sum_by};
ghost use Rattle.std.specs.FinMap.{get};
ghost use Rattle.pm_types.specs.declared.address.Addr.{Addr};
ghost use Rattle.pm_trains.specs.declared.trains.TheConstants.{BIRTHS};
ghost use Rattle.pm_trains.specs.Trains.{Train, cars_at, is_among, train_of};
ghost use Rattle.pm_trains.specs.Sound.{all_cars};
ghost use Rattle.pm_view.specs.View.{SpaceView};
ghost use Rattle.pm_view.specs.Law.{HeapLaw};
ghost use Rattle.pm_view.specs.Counts.{IsStandingAt, standing_in, standing_of, standing, old};
ghost use Rattle.pm_view.specs.Watches.{watch_in};
ghost use Rattle.pm_law_course.specs.Count.UpTo.{cars_up_to};

/// A law of two spaces: where whatever stands in some cars of the one stood in some cars of the other, no more do. One
/// fewer stands where one of them stands there no more (`fewer`); one more at most where one identity is new (`one`).
pub fn no_more_stand()
    ensures no_more { (view t : SpaceView) (cs ds : List ℕ) → HeapLaw view → HeapLaw t → IsDistinct nat_eq ds
        → ((q : ℕ) (a : Addr) → IsStandingAt t q a → is_among a.car ds ≡ true
        → (b : Addr) × (IsStandingAt view q b × (is_among b.car cs ≡ true)))
        → sum_by (standing_in t) ds ≤ sum_by (standing_in view) cs }
    ensures fewer { (view t : SpaceView) (cs ds : List ℕ) (left : ℕ) (from : Addr) → HeapLaw view → HeapLaw t
        → IsDistinct nat_eq ds
        → ((q : ℕ) (a : Addr) → IsStandingAt t q a → is_among a.car ds ≡ true
        → (b : Addr) × (IsStandingAt view q b × (is_among b.car cs ≡ true)))
        → IsStandingAt view left from → is_among from.car cs ≡ true
        → ((b : Addr) → IsStandingAt t left b → is_among b.car ds ≡ true → ⊥)
        → sum_by (standing_in t) ds + 1 ≤ sum_by (standing_in view) cs }
    ensures one { (view t : SpaceView) (cs ds : List ℕ) (new : ℕ) → HeapLaw view → HeapLaw t → IsDistinct nat_eq ds
        → ((q : ℕ) (a : Addr) → q ≢ new → IsStandingAt t q a → is_among a.car ds ≡ true
        → (b : Addr) × (IsStandingAt view q b × (is_among b.car cs ≡ true)))
        → sum_by (standing_in t) ds ≤ sum_by (standing_in view) cs + 1 }
{}

/// A law of lists of cars: what stands in the trains that are numbered up to one, in one train, or at all, is what
/// stands in a list of cars. Each car is in it once, and is in it just where its train is such a train.
pub fn old_objects_are_counted()
    ensures up_to { (view : SpaceView) (number : ℕ)
        → old view number ≡ sum_by (standing_in view) (cars_up_to number view.trains.trains) }
    ensures up_to_once { (view : SpaceView) (number : ℕ) → HeapLaw view
        → IsDistinct nat_eq (cars_up_to number view.trains.trains) }
    ensures up_to_home { (view : SpaceView) (number car : ℕ) → HeapLaw view
        → (is_among car (cars_up_to number view.trains.trains) ≡ true)
        ↔ IsSomeAnd (train_of view.trains.trains car) (λ train. train ≤ number) }
    ensures train { (view : SpaceView) (train : Train)
        → standing_of view train ≡ sum_by (standing_in view) train.cars }
    ensures train_once { (view : SpaceView) (train : Train) → HeapLaw view
        → cars_at view.trains.trains train.number ≡ Some train.cars → IsDistinct nat_eq train.cars }
    ensures train_home { (view : SpaceView) (train : Train) (car : ℕ) → HeapLaw view
        → cars_at view.trains.trains train.number ≡ Some train.cars
        → (is_among car train.cars ≡ true) ↔ (train_of view.trains.trains car ≡ Some train.number) }
    ensures all { (view : SpaceView) → standing view ≡ sum_by (standing_in view) (all_cars view.trains.trains) }
    ensures all_once { (view : SpaceView) → HeapLaw view → IsDistinct nat_eq (all_cars view.trains.trains) }
    ensures all_home { (view : SpaceView) (car : ℕ) → HeapLaw view
        → (is_among car (all_cars view.trains.trains) ≡ true) ↔ IsSome (get view.cars car) }
{}

/// A law of identities: fewer objects stand than the next identity says, since identities are given from 1 on.
pub fn fewer_stand_than_identities_were_given()
    ensures { (view : SpaceView) → HeapLaw view → standing view < view.next }
{}

/// A law of trains: every train but the first and the open one has an object that stands, so there are at most two
/// trains more than objects.
pub fn few_trains_stand()
    ensures { (view : SpaceView) → HeapLaw view → length view.trains.trains ≤ standing view + 2 }
{}

/// A law of watches: neither the objects that a watch notes nor its bound are cut off at the greatest number of their
/// widths.
pub fn a_watch_is_not_cut_off()
    ensures objects { (view : SpaceView) (position : ℕ) → HeapLaw view
        → (watch_in view position).objects ≡ standing view + (BIRTHS - view.trains.births) }
    ensures bound { (view : SpaceView) (position : ℕ) → HeapLaw view
        → (watch_in view position).bound ≡ length view.trains.trains
        * (((watch_in view position).objects + 2) * ((watch_in view position).objects + 2)) }
{}
