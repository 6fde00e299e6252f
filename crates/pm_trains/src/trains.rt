ghost use Rattle.std.specs.Prelude.{◌≡◌, ◌+◌, ◌<◌, ◌≤◌, ◌^◌, length, map, slice_index, Some, None, IsSome, IfSome, IfOk, OnOk, OnErr};
ghost use Rattle.pm_trains.specs.Trains.{first_trains, cars_at, HasCar, train_of, oldest, youngest, first_car, tail, appended, without_first, rotated};
ghost use Rattle.pm_trains.specs.Sound.{AreSoundTrains};
ghost use Rattle.pm_trains.specs.Changes.{StandsIn, opened};

use crate::line::Line;
use crate::place::{drop_empty, place_of};
use pm_types::{NoMemory, Numbered};
use std::alloc::Global;
use std::collections::VecDeque;
use std::marker::Model;

/// The most objects that are born in one train.
pub const BIRTHS: u32 = 1024;

/// No train is opened behind one of this number, 2^62. No memory holds so many trains.
pub const MOST_TRAINS: u64 = 1 << 62;

/// The trains, seen as the list of them, the oldest first, and the births in the open train. A train
/// has a number and a list of cars, the first car first. The youngest train is the open one.
///
/// At every moment some train stands, the numbers are over 0 and rise, every train but the youngest has
/// a car, and a car stands at one place of one train at most.
#[derive(Drop)]
pub struct Trains {
    trains: VecDeque<Line>,
    /// For each car the number of its train.
    homes: Numbered<u64>,
    births: u32,
}

impl Model for Trains {
    ghost use Rattle.std.specs.Prelude.{◌≡◌, ℕ};
    ghost use Rattle.std.specs.FinMap as map;
    ghost use Rattle.pm_trains.specs.Trains.{Trains as Shown, trains_code, train_of};
    ghost use Rattle.pm_trains.specs.Sound.{AreSoundTrains};

    ghost Value = { Shown };

    ghost coded = { trains_code };

    ghost view = { λ it. record { trains = it.trains.items; births = it.births } };

    ghost invariant = { λ it. record {
      sound : AreSoundTrains (record { trains = it.trains.items; births = it.births });
      housed : (car : ℕ) → map.get it.homes car ≡ train_of it.trains.items car;
    } };
}

impl Trains {
    /// The trains of a store in which no object was made: train 1 is open and has no car.
    pub fn new(alloc: Global) -> Result<Trains, NoMemory>
        ensures trains { IfOk result (λ trains. trains ≡ first_trains) }
        ensures sound { IfOk result (λ trains. AreSoundTrains trains) }
    {
        Trains::expecting(alloc, 0)
    }

    /// The same trains, where so many cars are to come, in any order of their numbers.
    pub fn expecting(alloc: Global, many: usize) -> Result<Trains, NoMemory>
        ensures trains { IfOk result (λ trains. trains ≡ first_trains) }
        ensures sound { IfOk result (λ trains. AreSoundTrains trains) }
    {
        let mut trains = VecDeque::new(alloc);
        trains.push_back(Line::new(alloc, 1))?;
        Ok(Trains {
            trains,
            homes: Numbered::expecting(alloc, many),
            births: 0,
        })
    }

    /// What holds of the trains at every moment. It does nothing, and takes no memory.
    pub fn sound(&self)
        ensures { AreSoundTrains self.now }
    {
        let _births = self.births;
    }

    /// How many trains stand, at least 1.
    pub fn len(&self) -> u64
        ensures len { result ≡ length self.now.trains }
        ensures some { 0 < result }
    {
        self.trains.len() as u64
    }

    /// How many objects were born in the open train, at most 1,024.
    pub fn births(&self) -> u32
        ensures births { result ≡ self.now.births }
        ensures small { result ≤ BIRTHS }
    {
        self.births
    }

    /// The number of the oldest train that has a car, or `None` where no car stands.
    pub fn oldest(&self) -> Option<u64>
        ensures train { result ≡ oldest self.now.trains }
        ensures car { IfSome result (λ train. HasCar self.now.trains train) }
    {
        let line = self.trains.front()?;
        if line.cars().is_empty() {
            None
        } else {
            Some(line.number())
        }
    }

    /// The number of the youngest train, which is the open one.
    pub fn youngest(&self) -> u64
        ensures train { result ≡ youngest self.now.trains }
        ensures stands { IsSome (cars_at self.now.trains result) }
    {
        self.trains[self.trains.len() - 1].number()
    }

    /// The number of the train at this place, counted from 0, the oldest first.
    pub fn nth(&self, place: u64) -> u64
        requires { place < length self.now.trains }
        ensures train { result ≡ slice_index (map (λ train. train.number) self.now.trains) place }
        ensures stands { IsSome (cars_at self.now.trains result) }
    {
        self.trains[place as usize].number()
    }

    /// The cars of this train, which stands, the first car first.
    pub fn cars(&self, train: u64) -> &[u64]
        requires { IsSome (cars_at self.now.trains train) }
        ensures { cars_at self.now.trains train ≡ Some result.now }
    {
        match place_of(&self.trains, train) {
            Some(place) => self.trains[place].cars(),
            None => unreachable!(),
        }
    }

    /// The first car of this train, or `None` where it has none or does not stand.
    pub fn first_car(&self, train: u64) -> Option<u64>
        ensures car { result ≡ first_car self.now.trains train }
        ensures has { IfSome result (λ _. HasCar self.now.trains train) }
        ensures home { IfSome result (λ car. train_of self.now.trains car ≡ Some train) }
    {
        let place = place_of(&self.trains, train)?;
        self.trains[place].cars().first().copied()
    }

    /// The last car of this train, or `None` where it has none or does not stand.
    pub fn tail(&self, train: u64) -> Option<u64>
        ensures car { result ≡ tail self.now.trains train }
        ensures has { IfSome result (λ _. HasCar self.now.trains train) }
        ensures home { IfSome result (λ car. train_of self.now.trains car ≡ Some train) }
    {
        let place = place_of(&self.trains, train)?;
        self.trains[place].cars().last().copied()
    }

    /// The number of the train in which this car, which stands, is.
    pub fn train_of(&self, car: u64) -> u64
        requires { IsSome (train_of self.now.trains car) }
        ensures train { train_of self.now.trains car ≡ Some result }
        ensures car { StandsIn self.now.trains car result }
    {
        match self.homes.get(car) {
            Some(train) => *train,
            None => unreachable!(),
        }
    }

    /// One more object was born in the open train.
    pub fn born(&mut self)
        requires { self.old.births < BIRTHS }
        ensures after { self.new ≡ record self.old { births = self.old.births + 1 } }
        ensures sound { AreSoundTrains self.new }
    {
        self.births += 1;
    }

    /// Opens a new train, which has no car and no births, and answers its number: one more than that
    /// of the youngest. After `NoMemory` all is as it was.
    pub fn rotate(&mut self, alloc: Global) -> Result<u64, NoMemory>
        requires car { HasCar self.old.trains (youngest self.old.trains) }
        requires small { youngest self.old.trains < MOST_TRAINS }
        ensures number { IfOk result (λ number. number ≡ youngest self.old.trains + 1) }
        ensures ok { OnOk result (self.new ≡ record { trains = rotated self.old.trains; births = 0 }) }
        ensures err { OnErr result (self.new ≡ self.old) }
        ensures sound { AreSoundTrains self.new }
    {
        let number = self.youngest() + 1;
        self.trains.push_back(Line::new(alloc, number))?;
        self.births = 0;
        Ok(number)
    }

    /// Puts a car, which stands in no train, at the end of this train, which stands. After `NoMemory`
    /// all is as it was.
    pub fn append_car(&mut self, train: u64, car: u64) -> Result<(), NoMemory>
        requires train { IsSome (cars_at self.old.trains train) }
        requires car { train_of self.old.trains car ≡ None }
        ensures ok { OnOk result (self.new ≡ record self.old { trains = appended train car self.old.trains }) }
        ensures err { OnErr result (self.new ≡ self.old) }
        ensures sound { AreSoundTrains self.new }
    {
        let Some(place) = place_of(&self.trains, train) else {
            unreachable!()
        };
        self.trains[place].append(&mut self.homes, car)?;
        Ok(())
    }

    /// Opens a new train, which has this car, that stands in no train, and no births, and answers its
    /// number: one more than that of the youngest. After `NoMemory` all is as it was.
    pub fn append_new(&mut self, alloc: Global, car: u64) -> Result<u64, NoMemory>
        requires youngest { HasCar self.old.trains (youngest self.old.trains) }
        requires small { youngest self.old.trains < MOST_TRAINS }
        requires car { train_of self.old.trains car ≡ None }
        ensures number { IfOk result (λ number. number ≡ youngest self.old.trains + 1) }
        ensures ok { OnOk result (self.new ≡ opened self.old car) }
        ensures err { OnErr result (self.new ≡ self.old) }
        ensures sound { AreSoundTrains self.new }
    {
        let number = self.youngest() + 1;
        self.trains.reserve(1)?;
        let mut line = Line::new(alloc, number);
        line.append(&mut self.homes, car)?;
        self.trains.push_back_reserved(line);
        self.births = 0;
        Ok(number)
    }

    /// Takes the first car of this train, which has one, out of it. A train left empty goes unless it
    /// is the youngest.
    pub fn remove_first(&mut self, train: u64)
        requires { HasCar self.old.trains train }
        ensures after { self.new ≡ record self.old { trains = without_first train self.old.trains } }
        ensures sound { AreSoundTrains self.new }
    {
        let Some(place) = place_of(&self.trains, train) else {
            unreachable!()
        };
        let car = self.trains[place].take_first();
        self.homes.remove(car);
        drop_empty(&mut self.trains, place);
    }
}
