//! Building a space of cars and roots.

ghost use Rattle.std.specs.Prelude.{◌≡◌, ◌≤◌, None, IfOk, map, length};
ghost use Rattle.std.specs.List.{AllByRecursion};
ghost use Rattle.std.specs.FinMap.{from_entries};
ghost use Rattle.pm_types.specs.declared.limits.TheConstants.{ROOTS};
ghost use Rattle.pm_roots.specs.Bindings.{AllNumbersDiffer};
ghost use Rattle.pm_copies.specs.Built.{MayBuild, IsBuiltOf, IsFull, CarsDiffer, Placed, built_cars, built_trains};
ghost use Rattle.pm_space.specs.Shown.{cars_of, view};
ghost use Rattle.pm_reopen.specs.Rebuild.Linking.{AreTold};
ghost use Rattle.pm_reopen.specs.Rebuild.Lists.{NamesDiffer, placed_of};
ghost use Rattle.pm_reopen.specs.Rebuild.Naming.{addresses};

use crate::rebuild::linking::{gather_cars, link_cars, put_cars};
use crate::rebuild::naming::bind_roots;
use crate::rebuild::remembering::remember;
use crate::rebuild::trains::make_trains;
use crate::rebuild::{CarList, RootList};
use pm_cars::Car;
use pm_guard::Guard;
use pm_handles::Handles;
use pm_law_copies::a_built_space_keeps_the_law;
use pm_place::Placement;
use pm_roots::Roots;
use pm_snap::Table;
use pm_space::{Held, LinkTable, Parts, Space};
use pm_trains::Trains;
use pm_types::NoMemory;
use pm_view::Phase;
use std::alloc::Global;

// What stands beside these cars: sets that remember the roots and the fields of others, and empty queues.
fn link_told(alloc: Global, cars: &[(u64, Car)], roots: &Roots) -> Result<LinkTable, NoMemory>
    requires { CarsDiffer (map placed_of cars.now) }
    ensures { IfOk result (AreTold (map placed_of cars.now) roots.now) }
{
    let mut sets = gather_cars(alloc, cars)?;
    remember(&mut sets, cars, roots)?;
    link_cars(alloc, cars, sets)
}

// These roots, each bound to its address, and what stands beside the cars then.
fn bind_and_link(
    alloc: Global,
    cars: &[(u64, Car)],
    list: RootList,
) -> Result<(Roots, LinkTable), NoMemory>
    requires differ { CarsDiffer (map placed_of cars.now) }
    requires names { NamesDiffer list }
    requires few { length list ≤ ROOTS }
    ensures bound { IfOk result (λ made. addresses made.0 ≡ from_entries list) }
    ensures numbers { IfOk result (λ made. AllNumbersDiffer made.0) }
    ensures told { IfOk result (λ made. AreTold (map placed_of cars.now) made.0 made.1) }
{
    let roots = bind_roots(alloc, list)?;
    roots.sound();
    let links = link_told(alloc, cars, &roots)?;
    Ok((roots, links))
}

// The table of these cars, and the trains in which they stand.
fn line_up(alloc: Global, cars: CarList) -> Result<(Table<Held>, Trains), NoMemory>
    requires full { AllByRecursion (λ (one : Placed). IsFull one.1) cars }
    requires differ { CarsDiffer cars }
    ensures cars { IfOk result (λ made. cars_of made.0 ≡ built_cars cars) }
    ensures frozen { IfOk result (λ made. made.0.frozen ≡ None) }
    ensures trains { IfOk result (λ made. made.1 ≡ built_trains cars) }
{
    let trains = make_trains(alloc, cars.as_slice())?;
    let table = put_cars(alloc, cars)?;
    Ok((table, trains))
}

// The parts of a space of these cars and roots.
fn build_parts<F: Drop>(
    alloc: Global,
    place: Placement<F>,
    cars: CarList,
    list: RootList,
    next: u64,
) -> Result<Parts<F>, NoMemory>
    requires may { MayBuild cars list next }
    requires names { NamesDiffer list }
    ensures view { IfOk result (λ parts. IsBuiltOf cars list next (view parts)) }
    ensures frozen { IfOk result (λ parts. parts.cars.frozen ≡ None) }
    ensures place { IfOk result (λ parts. parts.place ≡ place) }
{
    let (roots, links) = bind_and_link(alloc, cars.as_slice(), list)?;
    let (cars, trains) = line_up(alloc, cars)?;
    let handles = Handles::new(alloc)?;
    Ok(Parts {
        cars,
        links,
        trains,
        roots,
        handles,
        place,
        guard: Guard::new(),
        phase: Phase::Idle,
        next,
        completed: 0,
    })
}

/// A space of these cars and roots, in which nothing has happened yet, under this next identity.
///
/// The cars come in the order of their trains, whose numbers begin at 1 and rise by 0 or 1. Each has a number over 0 of
/// its own, an object, and no Moved slot. Identities are over 0, below the next one, and differ; each address names an
/// object; fields, bytes and names are within the limits, and names differ.
///
/// The cars and their slots keep their numbers. An open train without a car follows the last one. Each car remembers
/// just the sources outside it that name a slot of it, and no change waits. The roots are numbered 0, 1, 2 in their
/// order. The space has this chooser, and its cars are not frozen. Time and memory grow with the cars, slots, fields and
/// roots, times the logarithm of their number.
///
/// # Errors
///
/// `NoMemory` where memory ran out. The cars and roots are gone then.
pub fn build<F: Drop>(
    alloc: Global,
    place: Placement<F>,
    cars: CarList,
    roots: RootList,
    next: u64,
) -> Result<Space<F>, NoMemory>
    requires may { MayBuild cars roots next }
    requires names { NamesDiffer roots }
    ensures view { IfOk result (λ space. IsBuiltOf cars roots next (view space.parts)) }
    ensures frozen { IfOk result (λ space. space.parts.cars.frozen ≡ None) }
    ensures place { IfOk result (λ space. space.parts.place ≡ place) }
{
    a_built_space_keeps_the_law();
    let parts = build_parts(alloc, place, cars, roots, next)?;
    Ok(Space {
        parts,
        quiet: 0,
        moved: None,
    })
}
