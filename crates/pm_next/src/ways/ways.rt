ghost use Rattle.std.specs.Prelude.{◌≡◌, ◌<◌, true, [], length, IfOk, IfSome};
ghost use Rattle.std.specs.List.{list_any};
ghost use Rattle.std.specs.Ordering.{nat_cmp};
ghost use Rattle.std.specs.BTreeSet.{IsOrdered};
ghost use Rattle.pm_trains.specs.Trains.{is_among};
ghost use Rattle.pm_place.specs.Choosers.{IsChooser, IsPicked};
ghost use Rattle.pm_remset.specs.Remembered.{AppendsSources};
ghost use Rattle.pm_view.specs.Law.{HeapLaw};
ghost use Rattle.pm_view.specs.Candidates.{set_of, is_bare, candidates};
ghost use Rattle.pm_view.specs.Events.{home, ways_out};
ghost use Rattle.pm_space.specs.Shown.{view, IsLinked};
ghost use Rattle.pm_next.specs.Ways.Ways.{naming_train, AreHomes, way_of, leads_to, leads_elsewhere, IsOnlyWay};

use pm_space::Parts;
use pm_types::{Addr, NoMemory, RefSource};
use std::alloc::Global;
use std::collections::BTreeSet;

// The train of a source that is a field of an object in another train than this one; `None` for any other source.
fn naming_train<F>(parts: &Parts<F>, train: u64, source: RefSource) -> Option<u64>
    requires { IsLinked (view parts.now) }
    ensures { result ≡ naming_train parts.now.trains.trains train source }
{
    match source {
        RefSource::Field { at, .. } => {
            if !parts.links.has(at.car) {
                return None;
            }
            let home = parts.trains.train_of(at.car);
            if home == train { None } else { Some(home) }
        }
        RefSource::Root(_) => None,
        RefSource::Handle { .. } => None,
    }
}

// The other trains that have an object with one of these sources.
fn naming<F>(
    parts: &Parts<F>,
    alloc: Global,
    train: u64,
    sources: &[RefSource],
) -> Result<BTreeSet<u64>, NoMemory>
    requires { IsLinked (view parts.now) }
    ensures { IfOk result (AreHomes parts.now.trains.trains train sources.now) }
{
    let mut trains = BTreeSet::new(alloc);
    for source in sources {
        if let Some(home) = naming_train(parts, train, *source) {
            trains.insert(home)?;
        }
    }
    Ok(trains)
}

// Whether one of these sources is a root or a register.
fn has_bare(sources: &[RefSource]) -> bool
    ensures { result ≡ list_any is_bare sources.now }
{
    for source in sources {
        match source {
            RefSource::Root(_) | RefSource::Handle { .. } => return true,
            RefSource::Field { .. } => {}
        }
    }
    false
}

// The numbers in a set, in order.
fn in_order(alloc: Global, trains: BTreeSet<u64>) -> Result<Vec<u64>, NoMemory>
    ensures items { IfOk result (λ numbers. numbers.items ≡ trains.keys) }
    ensures ordered { IsOrdered nat_cmp trains }
{
    // For the proof alone: the numbers in the set are in order.
    let _len = trains.len();
    let numbers = trains.into_iter().collect(alloc)?;
    Ok(numbers)
}

// Whether a train is listed.
fn is_listed(trains: &[u64], train: u64) -> bool
    ensures { result ≡ is_among train trains.now }
{
    for listed in trains {
        if *listed == train {
            return true;
        }
    }
    false
}

// The sources that name the object at an address, in order.
fn sources_of<F>(parts: &Parts<F>, alloc: Global, at: Addr) -> Result<Vec<RefSource>, NoMemory>
    ensures { IfOk result (λ sources. AppendsSources (set_of (view parts.now) at.car) at.slot [] sources.items) }
{
    let mut sources = Vec::new(alloc);
    match parts.links.get(at.car) {
        Some(links) => {
            links.set.of_slot(at.slot, &mut sources)?;
            Ok(sources)
        }
        None => Ok(sources),
    }
}

// The trains to which an object of this train may go, where these sources name it and no others.
fn ways_among<F>(
    parts: &Parts<F>,
    alloc: Global,
    train: u64,
    sources: &[RefSource],
) -> Result<Vec<u64>, NoMemory>
    requires { HeapLaw (view parts.now) }
    ensures { IfOk result (λ ways. (at : Addr) → AppendsSources (set_of (view parts.now) at.car) at.slot [] sources.now
        → ways.items ≡ candidates (view parts.now) train at) }
{
    let trains = naming(parts, alloc, train, sources)?;
    let mut ways = in_order(alloc, trains)?;
    let open_train = parts.trains.youngest();
    if !has_bare(sources) {
        return Ok(ways);
    }
    if is_listed(&ways, open_train) {
        return Ok(ways);
    }
    ways.push(open_train)?;
    Ok(ways)
}

/// The trains to which the object at an address, of this train, may go: those that have an object that names it,
/// ascending, and the open train behind them where a root or a register names it and the open train is not among them.
/// It looks at the sources that name the object.
pub fn ways_out<F>(
    parts: &Parts<F>,
    alloc: Global,
    train: u64,
    at: Addr,
) -> Result<Vec<u64>, NoMemory>
    requires { HeapLaw (view parts.now) }
    ensures { IfOk result (λ ways. ways.items ≡ candidates (view parts.now) train at) }
{
    let sources = sources_of(parts, alloc, at)?;
    ways_among(parts, alloc, train, &sources)
}

// The train to which a source leads an object of this train: the open train where it is a root or a register, and
// else the train of the source where that is another one.
fn way_of<F>(parts: &Parts<F>, train: u64, source: RefSource) -> Option<u64>
    requires { IsLinked (view parts.now) }
    ensures { result ≡ way_of parts.now.trains.trains train source }
{
    match source {
        RefSource::Root(_) => Some(parts.trains.youngest()),
        RefSource::Handle { .. } => Some(parts.trains.youngest()),
        RefSource::Field { .. } => naming_train(parts, train, source),
    }
}

// The train to which the first of these sources leads that leads to one.
fn first_way<F>(parts: &Parts<F>, train: u64, sources: &[RefSource]) -> Option<u64>
    requires { IsLinked (view parts.now) }
    ensures { IfSome result (λ way. list_any (leads_to parts.now.trains.trains train way) sources.now ≡ true) }
{
    for source in sources {
        if let Some(way) = way_of(parts, train, *source) {
            return Some(way);
        }
    }
    None
}

// Whether a source leads to a train, and not to this one.
fn is_elsewhere<F>(parts: &Parts<F>, train: u64, way: u64, source: RefSource) -> bool
    requires { IsLinked (view parts.now) }
    ensures { result ≡ leads_elsewhere parts.now.trains.trains train way source }
{
    match way_of(parts, train, source) {
        Some(other) => other != way,
        None => false,
    }
}

// Whether one of these sources leads to a train, and not to this one.
fn has_elsewhere<F>(parts: &Parts<F>, train: u64, way: u64, sources: &[RefSource]) -> bool
    requires { IsLinked (view parts.now) }
    ensures { result ≡ list_any (leads_elsewhere parts.now.trains.trains train way) sources.now }
{
    for source in sources {
        if is_elsewhere(parts, train, way, *source) {
            return true;
        }
    }
    false
}

// The train to which these sources lead, where they lead to one only.
fn only_way<F>(parts: &Parts<F>, train: u64, sources: &[RefSource]) -> Option<u64>
    requires { IsLinked (view parts.now) }
    ensures { IfSome result (IsOnlyWay parts.now.trains.trains train sources.now) }
{
    let way = first_way(parts, train, sources)?;
    if has_elsewhere(parts, train, way, sources) {
        return None;
    }
    Some(way)
}

/// The train of a car, 0 where the car does not stand.
pub fn home<F>(parts: &Parts<F>, car: u64) -> u64
    requires { IsLinked (view parts.now) }
    ensures { result ≡ home (view parts.now) car }
{
    if !parts.links.has(car) {
        return 0;
    }
    parts.trains.train_of(car)
}

/// The train that the chooser picks among those to which the object at an address may go. There is one.
pub fn pick_way<F: Fn(&[u64]) -> usize + Drop>(
    parts: &Parts<F>,
    alloc: Global,
    at: Addr,
) -> Result<u64, NoMemory>
    requires chooser { IsChooser F.Fn parts.now.place }
    requires law { HeapLaw (view parts.now) }
    requires some { 0 < length (ways_out (view parts.now) at) }
    ensures { IfOk result (λ train. IsPicked F.Fn parts.now.place (ways_out (view parts.now) at) train) }
{
    let train = home(parts, at.car);
    let sources = sources_of(parts, alloc, at)?;
    if let Some(way) = only_way(parts, train, &sources) {
        return Ok(parts.place.pick(&[way]));
    }
    let ways = ways_among(parts, alloc, train, &sources)?;
    Ok(parts.place.pick(&ways))
}
