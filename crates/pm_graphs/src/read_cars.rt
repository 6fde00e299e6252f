//! Cars that were read, with what was made of their pages.

ghost use Rattle.std.specs.Prelude.{◌≡◌, ◌++◌, IfOk, OnOk, OnErr, [], ◌∷◌, length};
ghost use Rattle.std.specs.List.{AllZip};
ghost use Rattle.std.specs.FinSet as set;
ghost use Rattle.pm_types.specs.declared.limits.TheConstants.{FIELDS, PAGE_BYTES};
ghost use Rattle.pm_image.specs.CarPages.{HasCarPage, car_spelling, one_car, padded};
ghost use Rattle.pm_graphs.specs.Reading.{car_list};

use crate::from_page::FromPage;
use crate::mapped_cars::MappedCars;
use crate::settled::{PackedPage, PackedPages};
use pm_image::{KeptPage, Settled};
use pm_types::NoMemory;
use std::alloc::Global;
use std::marker::Model;

/// A car that was read, with its page, and what was made of that page. It is seen as the `KeptPage`.
#[derive(Drop)]
pub(crate) struct ReadCar<P: FromPage> {
    kept: KeptPage,
    made: P,
}

impl<P: FromPage> Model for ReadCar<P> {
    ghost use Rattle.pm_image.specs.declared.settled.KeptPage.{KeptPage};

    ghost Value = { KeptPage };

    ghost view = { λ it. it.kept };

    ghost invariant = { λ it. P.is_of it.made it.kept };
}

impl<P: FromPage> ReadCar<P> {
    /// This car, with what is made of the bytes of its page.
    pub(crate) fn of_page(
        alloc: Global,
        kept: KeptPage,
        page: &[u8],
    ) -> Result<ReadCar<P>, NoMemory>
        requires has { HasCarPage (one_car FIELDS) set.empty kept.image }
        requires page { page.now ≡ padded (car_spelling kept.image) }
        requires whole { length page.now ≡ PAGE_BYTES }
        ensures { IfOk result (λ car. car ≡ kept) }
    {
        let made = P::from_page(alloc, &kept, page)?;
        Ok(ReadCar { kept, made })
    }
}

/// Cars that were read so far, each with its page, and what was made of each page. They are seen as a list of `KeptPage`s.
#[derive(Drop)]
pub(crate) struct ReadList<P: FromPage> {
    cars: Vec<KeptPage>,
    made: Vec<P>,
}

impl<P: FromPage> Model for ReadList<P> {
    ghost use Rattle.std.specs.Prelude.{List};
    ghost use Rattle.std.specs.List.{AllZip};
    ghost use Rattle.std.specs.Coded.{coded_list};
    ghost use Rattle.pm_image.specs.declared.settled.KeptPage.{KeptPage};
    ghost use Rattle.pm_image.specs.contracts.settled.KeptPage as kept_page;

    ghost Value = { List KeptPage };

    ghost coded = { coded_list kept_page.the_row.coded };

    ghost view = { λ it. it.cars.items };

    ghost invariant = { λ it. AllZip P.is_of it.made.items it.cars.items };
}

impl<P: FromPage> ReadList<P> {
    /// No car. It takes no memory.
    pub(crate) fn new(alloc: Global) -> ReadList<P>
        ensures { result ≡ [] }
    {
        ReadList {
            cars: Vec::new(alloc),
            made: Vec::new(alloc),
        }
    }

    // Puts a car at the end. After want of memory all is as it was.
    fn push_car(&mut self, car: ReadCar<P>) -> Result<(), NoMemory>
        ensures ok { OnOk result (self.new ≡ self.old ++ car ∷ []) }
        ensures err { OnErr result (self.new ≡ self.old) }
    {
        let ReadCar { kept, made } = car;
        self.cars.reserve(1)?;
        self.made.reserve(1)?;
        self.cars.push_reserved(kept);
        self.made.push_reserved(made);
        Ok(())
    }

    /// Puts a car at the end, if there is one. After want of memory all is as it was.
    pub(crate) fn push(&mut self, car: Option<ReadCar<P>>) -> Result<(), NoMemory>
        ensures ok { OnOk result (self.new ≡ self.old ++ car_list car) }
        ensures err { OnErr result (self.new ≡ self.old) }
    {
        match car {
            Some(car) => self.push_car(car),
            None => Ok(()),
        }
    }

    /// These cars, with the map of the slots that they list.
    pub(crate) fn mapped(self, alloc: Global) -> Result<ReadCars<P>, NoMemory>
        ensures { IfOk result (λ cars. cars ≡ self) }
    {
        let ReadList { cars, made } = self;
        let cars = MappedCars::of_cars(alloc, Settled::from_vec(cars))?;
        Ok(ReadCars { cars, made })
    }
}

/// Cars that were read, each with its page, what was made of each page, and the map of the slots that they list. They are
/// seen as a list of `KeptPage`s.
#[derive(Drop)]
pub struct ReadCars<P: FromPage> {
    cars: MappedCars,
    made: Vec<P>,
}

impl<P: FromPage> Model for ReadCars<P> {
    ghost use Rattle.std.specs.Prelude.{List};
    ghost use Rattle.std.specs.List.{AllZip};
    ghost use Rattle.std.specs.Coded.{coded_list};
    ghost use Rattle.pm_image.specs.declared.settled.KeptPage.{KeptPage};
    ghost use Rattle.pm_image.specs.contracts.settled.KeptPage as kept_page;

    ghost Value = { List KeptPage };

    ghost coded = { coded_list kept_page.the_row.coded };

    ghost view = { λ it. it.cars };

    ghost invariant = { λ it. AllZip P.is_of it.made.items it.cars };
}

impl<P: FromPage> ReadCars<P> {
    /// The cars with their map, lent.
    pub(crate) fn mapped(&self) -> &MappedCars
        ensures { result.now ≡ self.now }
    {
        &self.cars
    }

    /// The cars with their map, and what was made of each page, in the same order.
    pub fn into_made(self) -> (MappedCars, Vec<P>)
        ensures cars { result.0 ≡ self }
        ensures made { AllZip P.is_of result.1.items self }
    {
        (self.cars, self.made)
    }
}

impl ReadCars<PackedPage> {
    /// The cars as their pages spell them, and the same packed. Their map is let go.
    pub fn into_parts(self) -> (Settled, PackedPages)
        ensures cars { result.0 ≡ self }
        ensures packed { result.1 ≡ self }
    {
        let (cars, _leads) = self.cars.into_parts();
        (cars, PackedPages::from_vec(self.made))
    }
}
