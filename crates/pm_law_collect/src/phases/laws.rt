//! What nothing outside names. Each function's contract is a law, and the function does nothing.

ghost use Rattle.std.specs.Prelude.{◌≡◌, ℕ, ◌==◌, true, Some};
ghost use Rattle.pm_types.specs.declared.address.Addr.{Addr};
ghost use Rattle.pm_types.specs.declared.source.RefSource.{RefSource};
ghost use Rattle.pm_trains.specs.Trains.{is_among, train_of};
ghost use Rattle.pm_view.specs.Sources.{lies_in};
ghost use Rattle.pm_view.specs.View.{SpaceView};
ghost use Rattle.pm_view.specs.Reading.{stored, cars_of};
ghost use Rattle.pm_view.specs.Law.{HeapLaw};
ghost use Rattle.pm_view.specs.Events.{doom, move_on, finish, next_row};

/// A law of what is given up: where a train is doomed, each root, register and field that stores an address in it is a
/// field of an object of the train; where a car begins to be swept, each that stores an address in the car is a field of
/// an object of the car.
pub fn nothing_outside_names_what_is_given_up()
    ensures train { (view : SpaceView) (train : ℕ) (x : RefSource) (a : Addr) → HeapLaw view
        → next_row view ≡ doom train → stored view x ≡ Some a
        → train_of view.trains.trains a.car ≡ Some train
        → lies_in (λ car. is_among car (cars_of view.trains.trains train)) x ≡ true }
    ensures car { (view : SpaceView) (car : ℕ) (x : RefSource) (a : Addr) → HeapLaw view
        → next_row view ≡ finish car → stored view x ≡ Some a
        → (car == a.car) ≡ true → lies_in (λ e. car == e) x ≡ true }
{}

/// A law of what moves to the end of its own train: no root, no register and no field of an object of another train
/// stores its address. So an object that is named from outside leaves its train.
pub fn an_object_moves_on_where_nothing_outside_names_it()
    ensures { (view : SpaceView) (train : ℕ) (x : RefSource) (a : Addr) → HeapLaw view → next_row view ≡ move_on a train
        → stored view x ≡ Some a
        → lies_in (λ car. is_among car (cars_of view.trains.trains train)) x ≡ true }
{}
