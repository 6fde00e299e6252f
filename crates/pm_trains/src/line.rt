ghost use Rattle.std.specs.Prelude.{◌≡◌, ◌+◌, ◌<◌, ◌++◌, ◌∷◌, [], length, drop, OnOk, OnErr};
ghost use Rattle.std.specs.FinMap as map;
ghost use Rattle.pm_trains.specs.Trains.{empty_train};
ghost use Rattle.pm_trains.specs.Changes.{Notes};

use pm_types::{NoMemory, Numbered};
use std::alloc::Global;
use std::marker::Model;

/// A train, seen as its number and the list of its cars, the first car first.
#[derive(Drop)]
pub struct Line {
    number: u64,
    cars: Vec<u64>,
    /// How many cars at the front of `cars` have left.
    left: usize,
}

impl Model for Line {
    ghost use Rattle.std.specs.Prelude.{◌≤◌, length, drop};
    ghost use Rattle.pm_trains.specs.Trains.{Train, train_code};

    ghost Value = { Train };

    ghost coded = { train_code };

    ghost view = { λ it. record { number = it.number; cars = drop it.left it.cars.items } };

    ghost invariant = { λ it. it.left ≤ length it.cars.items };
}

impl Line {
    /// A train without a car.
    pub fn new(alloc: Global, number: u64) -> Line
        ensures { result ≡ empty_train number }
    {
        Line {
            number,
            cars: Vec::new(alloc),
            left: 0,
        }
    }

    /// The train's number.
    pub fn number(&self) -> u64
        ensures { result ≡ self.now.number }
    {
        self.number
    }

    /// The train's cars, the first car first.
    pub fn cars(&self) -> &[u64]
        ensures { result.now ≡ self.now.cars }
    {
        &self.cars[self.left..]
    }

    /// Puts the car at the end of the train, and notes the train as its home.
    pub fn append(&mut self, homes: &mut Numbered<u64>, car: u64) -> Result<(), NoMemory>
        ensures train { OnOk result (self.new ≡ record self.old { cars = self.old.cars ++ car ∷ [] }) }
        ensures home { OnOk result (Notes (map.get homes.old) (map.get homes.new) car self.old.number) }
        ensures err_train { OnErr result (self.new ≡ self.old) }
        ensures err_homes { OnErr result (homes.new ≡ homes.old) }
    {
        self.cars.reserve(1)?;
        homes.insert(car, self.number)?;
        self.cars.push_reserved(car);
        Ok(())
    }

    /// Takes the first car out of the train, which has one, and answers it.
    pub fn take_first(&mut self) -> u64
        requires { 0 < length self.old.cars }
        ensures first { self.old.cars ≡ result ∷ self.new.cars }
        ensures number { self.new.number ≡ self.old.number }
    {
        let car = self.cars[self.left];
        self.left += 1;
        if self.left > self.cars.len() / 2 {
            self.cars.drain(..self.left);
            self.left = 0;
        }
        car
    }
}
