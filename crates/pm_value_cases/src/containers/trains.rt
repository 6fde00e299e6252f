//! Calls of the trains.

ghost use Rattle.std.specs.Prelude.{◌≡◌, ◌<◌, ◌==◌, ℕ, true, false, None, IsSome, length, slice_index_or, OnOk};
ghost use Rattle.pm_trains.specs.Trains.{cars_at, empty_train, is_among, train_of};

use crate::containers::answers::{Answer, NumberCalls, Numbers};
use crate::containers::spelling::Calls;
use pm_case_text::{CallsOf, Fault, push_calls, push_number, push_said, refuse};
use pm_trains::{BIRTHS, MOST_TRAINS, Trains};
use std::alloc::Global;
use std::fmt::Write;

// Whether the train at this place has this car.
fn has(trains: &Trains, place: u64, car: u64) -> bool
    requires { place < length trains.now.trains }
    ensures { result ≡ is_among car (slice_index_or trains.now.trains place (empty_train 0)).cars }
{
    trains.sound();
    let train = trains.nth(place);
    trains.cars(train).contains(&car)
}

// Whether this car stands in no train.
fn is_free(trains: &Trains, car: u64) -> bool
    ensures { result ≡ true → train_of trains.now.trains car ≡ None }
{
    for place in 0..trains.len() {
        if has(trains, place, car) {
            return false;
        }
    }
    true
}

// Whether this train is the open one or has a car: then it stands.
fn is_standing(trains: &Trains, train: u64) -> bool
    ensures { result ≡ true → IsSome (cars_at trains.now.trains train) }
{
    if train == trains.youngest() {
        return true;
    }
    trains.first_car(train).is_some()
}

// Opens a new train, and answers its number.
fn rotate(alloc: Global, trains: &mut Trains) -> Result<Answer, Fault> {
    let open = trains.youngest();
    if trains.first_car(open).is_none() || open >= MOST_TRAINS {
        return Err(refuse("no car, or too many trains"));
    }
    Ok(Answer::Number(trains.rotate(alloc)?))
}

// Takes the first car of a train out of it.
fn remove(trains: &mut Trains, train: u64) -> Result<Answer, Fault> {
    if trains.first_car(train).is_none() {
        return Err(refuse("no car"));
    }
    trains.remove_first(train);
    Ok(Answer::Done)
}

// One more object is born in the open train.
fn bear(trains: &mut Trains) -> Result<Answer, Fault> {
    if trains.births() >= BIRTHS {
        return Err(refuse("too many births"));
    }
    trains.born();
    Ok(Answer::Done)
}

// The train in which the first car of this train is found.
fn of_first(trains: &Trains, train: u64) -> Option<u64> {
    let Some(car) = trains.first_car(train) else {
        return None;
    };
    Some(trains.train_of(car))
}

// The train in which the last car of this train is found.
fn of_last(trains: &Trains, train: u64) -> Option<u64> {
    let Some(car) = trains.tail(train) else {
        return None;
    };
    Some(trains.train_of(car))
}

// Adds the number and the cars of the train at a place.
fn push_train(trains: &Trains, place: u64, out: &mut String) -> Result<(), Fault>
    requires { place < length trains.now.trains }
{
    let train = trains.nth(place);
    let cars = trains.cars(train);
    write!(out, "{train}{cars:?} ")?;
    Ok(())
}

// Adds the trains, the oldest first, and then the births.
fn push_trains_there(trains: &Trains, out: &mut String) -> Result<(), Fault> {
    for place in 0..trains.len() {
        push_train(trains, place, out)?;
    }
    push_number(trains.births() as u64, out)
}

impl Numbers for Trains {
    fn with_none(&mut self, alloc: Global, call: &str) -> Result<Answer, Fault> {
        match call {
            "rotate" => rotate(alloc, self),
            "born" => bear(self),
            "len" => Ok(Answer::Number(self.len())),
            "births" => Ok(Answer::Number(self.births() as u64)),
            "oldest" => Ok(Answer::Found(self.oldest())),
            "youngest" => Ok(Answer::Number(self.youngest())),
            _ => Err(refuse("no such call")),
        }
    }

    fn with_one(&mut self, call: &str, train: u64) -> Result<Answer, Fault> {
        match call {
            "remove" => remove(self, train),
            "first" => Ok(Answer::Found(self.first_car(train))),
            "last" => Ok(Answer::Found(self.tail(train))),
            "of-first" => Ok(Answer::Found(of_first(self, train))),
            "of-last" => Ok(Answer::Found(of_last(self, train))),
            _ => Err(refuse("no such call")),
        }
    }

    fn with_two(&mut self, call: &str, train: u64, car: u64) -> Result<Answer, Fault> {
        if call != "append" || !is_standing(self, train) || !is_free(self, car) {
            return Err(refuse("no such call, or no place"));
        }
        self.append_car(train, car)?;
        Ok(Answer::Done)
    }
}

impl CallsOf<Trains> for Calls {
    fn call(alloc: Global, called: &mut Trains, text: &str, out: &mut String) -> Result<(), Fault> {
        match text {
            "look" => push_trains_there(called, out),
            _ => NumberCalls::call(alloc, called, text, out),
        }
    }
}

/// `CALLS`: the calls, between ` / `, of the trains of a new store: `append TRAIN CAR`, `rotate`, `remove TRAIN`,
/// `born`, `look`, `len`, `births`, `oldest`, `youngest`, `first TRAIN`, `last TRAIN`, `of-first TRAIN` and `of-last TRAIN`.
pub(crate) fn push_trains(alloc: Global, text: &str, out: &mut String) -> Result<(), Fault> {
    let mut trains = Trains::new(alloc)?;
    push_calls::<Calls, _>(alloc, &mut trains, text, out)
}

// Puts this car at the end of the open train, or into a new one where that one has seven.
fn put(alloc: Global, trains: &mut Trains, car: u64) -> Result<(), Fault>
    requires { train_of trains.old.trains car ≡ None }
    ensures { OnOk result ((other : ℕ) → (car == other) ≡ false → train_of trains.old.trains other ≡ None
        → train_of trains.new.trains other ≡ None) }
{
    let open = trains.youngest();
    let full = car % 7 == 1 && trains.tail(open).is_some();
    if full && open < MOST_TRAINS {
        trains.append_new(alloc, car)?;
    } else {
        trains.append_car(open, car)?;
    }
    Ok(())
}

// Trains of seven cars each: car n stands in train (n + 6) / 7.
fn filled(alloc: Global, count: u32) -> Result<Trains, Fault> {
    let mut trains = Trains::new(alloc)?;
    for car in 1..=count as u64 {
        put(alloc, &mut trains, car)?;
    }
    Ok(trains)
}

// Whether the oldest train is that of this number, with this first car, and with seven times its number as its last
// one.
fn is_oldest(trains: &Trains, train: u64, car: u64) -> bool {
    trains.oldest() == Some(train)
        && trains.first_car(train) == Some(car)
        && trains.tail(train) == Some(train.wrapping_mul(7))
        && of_first(trains, train) == Some(train)
}

// Takes the car that is due out of its train; whether it was the first one of the oldest.
fn is_taken(trains: &mut Trains, car: u32) -> bool {
    let car = car as u64;
    let train = (car + 6) / 7;
    is_oldest(trains, train, car) && remove(trains, train).is_ok()
}

// Takes all cars out; whether each came in its turn, and one train without a car was left.
fn is_emptied_in_order(trains: &mut Trains, count: u32) -> bool {
    let mut right = true;
    for car in 1..=count {
        right &= is_taken(trains, car);
    }
    right && trains.len() == 1 && trains.oldest().is_none()
}

/// So many cars are put into trains of seven each, and are taken out again, the first car of the oldest train each time.
/// Adds how many trains there were, and answers whether each car came in its turn.
pub(crate) fn is_long_right(alloc: Global, count: u32, out: &mut String) -> Result<bool, Fault> {
    let mut trains = filled(alloc, count)?;
    push_said("trains", trains.len(), out)?;
    Ok(is_emptied_in_order(&mut trains, count))
}
