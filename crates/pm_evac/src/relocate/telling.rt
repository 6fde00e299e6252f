ghost use Rattle.std.specs.Prelude.{◌≡◌, ℕ, ◌+◌, ◌<◌, ◌^◌, length, None};
ghost use Rattle.pm_types.specs.declared.source.RefSource.TheVariants.{Field};
ghost use Rattle.pm_view.specs.Reading.{aside_in};
ghost use Rattle.pm_space.specs.Linked.{sets_of, AreHoused, HasRoom, Tells, UsesRoom, told_by};
ghost use Rattle.pm_evac.specs.Relocate.Named.{named_by};
ghost use Rattle.pm_evac.specs.Relocate.Moves.{move_tells, moves_told};

use pm_space::{LinkTable, tell_all};
use pm_trains::Trains;
use pm_types::{Addr, RefSource};
use pm_view::Phase;

// Tells the cars that hear of it that a field of an object that moves leaves its old place, and stores this address at
// the new one, in room that was made before.
fn tell_field(
    links: &mut LinkTable,
    trains: &Trains,
    phase: Phase,
    from: Addr,
    to: Addr,
    index: u32,
    old: Option<Addr>,
    new: Option<Addr>,
)
    requires housed { AreHoused (sets_of links.old) trains.now.trains }
    requires room { (car : ℕ) → HasRoom links.old car (told_by car old + told_by car new) }
    ensures sets { sets_of links.new ≡ sets_of links.old }
    ensures queues { Tells links.old links.new (move_tells (aside_in phase trains.now.trains) from to index old new) }
    ensures used { UsesRoom links.old links.new (λ car. told_by car old + told_by car new) }
{
    let left = RefSource::Field { at: from, index };
    tell_all(links, trains, phase, left, old, None);
    let entered = RefSource::Field { at: to, index };
    tell_all(links, trains, phase, entered, None, new);
}

/// Tells the cars that hear of them that the fields of an object that moves leave their old places, and store these
/// addresses at the new ones, in room that was made before.
pub(crate) fn tell_moved(
    links: &mut LinkTable,
    trains: &Trains,
    phase: Phase,
    from: Addr,
    to: Addr,
    old: &[Option<Addr>],
    new: &[Option<Addr>],
)
    requires few { length old.now < 2 ^ 32 }
    requires same { length new.now ≡ length old.now }
    requires housed { AreHoused (sets_of links.old) trains.now.trains }
    requires room { (car : ℕ) → HasRoom links.old car (named_by old.now car + named_by new.now car) }
    ensures sets { sets_of links.new ≡ sets_of links.old }
    ensures queues { Tells links.old links.new (moves_told (aside_in phase trains.now.trains) from to old.now new.now) }
{
    for index in 0..old.len() as u32 {
        let field = old[index as usize];
        let led = new[index as usize];
        tell_field(links, trains, phase, from, to, index, field, led);
    }
}
