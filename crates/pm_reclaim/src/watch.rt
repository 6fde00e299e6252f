//! Watches: what one notes when it is set, and what is told of it at the end.

ghost use Rattle.std.specs.Prelude.{◌≡◌, ◌≤◌, length};
ghost use Rattle.pm_types.specs.declared.limits.TheConstants.{WATCHES};
ghost use Rattle.pm_view.specs.Watches.{bound_of, line_of, lines_from, objects_in, watch_in};
ghost use Rattle.pm_space.specs.Shown.{view};

use arrayvec::ArrayVec;
use pm_space::Space;
use pm_trains::BIRTHS;
use pm_types::{WATCHES, Watch, WatchLine};

/// The room of a list of watches: as many as may be set.
pub const WATCH_ROOM: usize = WATCHES as usize;

// How many objects stand, and how many more can be born in the open train.
fn objects<F: Drop>(space: &Space<F>) -> u64
    ensures { result ≡ objects_in (view space.now.parts) }
{
    let births = space.parts.trains.births();
    space.standing().saturating_add(u64::from(BIRTHS - births))
}

// For so many trains and objects, how many collections may pass.
fn bound(trains: u64, objects: u64) -> u128
    ensures { result ≡ bound_of trains objects }
{
    let side = u128::from(objects) + 2;
    u128::from(trains).saturating_mul(side.saturating_mul(side))
}

/// The watch that is set in a space now, where the journal has so many entries. It looks at each car once, and takes no
/// memory. Its bound is `t * (n + 2)^2` for `t` trains and `n` objects, those that stand and those that can still be born
/// in the open train, or the greatest number of 128 bits where it is more.
pub fn set_watch<F: Drop>(space: &Space<F>, position: u64) -> Watch
    ensures { result ≡ watch_in (view space.now.parts) position }
{
    let trains = &space.parts.trains;
    let objects = objects(space);
    Watch {
        position,
        youngest: trains.youngest(),
        objects,
        bound: bound(trains.len(), objects),
        completed: space.completed(),
    }
}

/// What is told of a watch with this number: how many collections were completed since it was set, and how many objects
/// stand in trains that stood then. It looks at each of their cars once, and takes no memory.
pub fn tell_watch<F: Drop>(space: &Space<F>, number: u32, watch: &Watch) -> WatchLine
    ensures { result ≡ line_of (view space.now.parts) number watch.now }
{
    WatchLine {
        number,
        bound: watch.bound,
        done: space.completed().saturating_sub(watch.completed),
        old: space.old(watch.youngest),
    }
}

/// What is told of the watches, which have the numbers 1, 2, 3 in their order. It takes no memory.
pub fn tell_watches<F: Drop>(space: &Space<F>, watches: &[Watch]) -> ArrayVec<WatchLine, WATCH_ROOM>
    requires { length watches.now ≤ WATCHES }
    ensures { result.items ≡ lines_from (view space.now.parts) 1 watches.now }
{
    let mut lines = ArrayVec::new();
    let mut number = 0;
    for watch in watches {
        number += 1;
        lines.push(tell_watch(space, number, watch));
    }
    lines
}
