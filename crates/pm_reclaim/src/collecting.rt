ghost use Rattle.pm_place.specs.Choosers.{IsChooser};
ghost use Rattle.pm_view.specs.Events.{next_row};
ghost use Rattle.pm_space.specs.Shown.{view};
ghost use Rattle.pm_evac.specs.Steps.{MakesEvent};
ghost use Rattle.pm_reclaim.specs.Rows.{IsSelect, IsDecide};

use crate::make_next;
use pm_space::Space;
use pm_types::{NoMemory, Step};
use std::alloc::Global;

/// Makes the next event where it selects a train: the oldest train that has a car is drained from now on; where it is
/// the open one, a new open train is opened first. Want of memory is answered too where the number of that train would
/// be over `MOST_TRAINS`. After that answer all is as it was.
pub fn select<F: Fn(&[u64]) -> usize + Drop>(
    space: &mut Space<F>,
    alloc: Global,
) -> Result<Step, NoMemory>
    requires { IsSelect (next_row (view space.old.parts)) }
    ensures { MakesEvent F.Fn space.old.parts space.new.parts result }
{
    make_next(space, alloc)
}

/// Makes the next event where it decides what becomes of the train that is drained: it is given up whole where nothing
/// outside names an object of it, and else its first car begins to be emptied, and an anchor is noted where none
/// stands, with a train that the chooser picks. After want of memory all is as it was.
pub fn decide<F: Fn(&[u64]) -> usize + Drop>(
    space: &mut Space<F>,
    alloc: Global,
) -> Result<Step, NoMemory>
    requires chooser { IsChooser F.Fn space.old.parts.place }
    requires row { IsDecide (next_row (view space.old.parts)) }
    ensures { MakesEvent F.Fn space.old.parts space.new.parts result }
{
    make_next(space, alloc)
}

/// Makes the next event of the collector, whichever it is, and answers what it did: `Nothing` where none comes, which
/// is where no car stands. Want of memory is answered too where the oldest train is the open one and its number is
/// `MOST_TRAINS`. After want of memory all is as it was.
pub fn collect_one<F: Fn(&[u64]) -> usize + Drop>(
    space: &mut Space<F>,
    alloc: Global,
) -> Result<Step, NoMemory>
    requires { IsChooser F.Fn space.old.parts.place }
    ensures { MakesEvent F.Fn space.old.parts space.new.parts result }
{
    make_next(space, alloc)
}
