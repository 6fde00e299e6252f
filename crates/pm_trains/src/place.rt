ghost use Rattle.std.specs.Prelude.{◌≡◌, ◌<◌, true, length, if◌then◌else◌, None, MatchOption};
ghost use Rattle.std.specs.List.{remove};
ghost use Rattle.pm_trains.specs.Trains.{cars_at};
ghost use Rattle.pm_trains.specs.Sound.{Rise};
ghost use Rattle.pm_trains.specs.Places.{IsAt, is_left_empty};

use crate::line::Line;
use std::collections::VecDeque;

// Whether the train of this number stands first. The one that is collected often does.
fn is_first(trains: &VecDeque<Line>, number: u64) -> bool
    ensures { result ≡ true → IsAt trains.now.items number 0 }
{
    match trains.front() {
        Some(line) => line.number() == number,
        None => false,
    }
}

/// The place, from 0, at which the train of this number stands in trains whose numbers rise, or
/// `None` where it stands at none.
pub fn place_of(trains: &VecDeque<Line>, number: u64) -> Option<usize>
    requires { Rise 0 trains.now.items }
    ensures { MatchOption result (cars_at trains.now.items number ≡ None) (IsAt trains.now.items number) }
{
    if is_first(trains, number) {
        return Some(0);
    }
    trains
        .binary_search_by_key(&number, |line| line.number())
        .ok()
}

/// Takes the train at this place away where it has no car and is not the last. It takes no memory, and
/// the shorter side of the trains moves: the oldest train goes at once.
pub fn drop_empty(trains: &mut VecDeque<Line>, place: usize)
    requires { place < length trains.old.items }
    ensures { let ts = trains.old.items in trains.new.items ≡ (if is_left_empty ts place then remove ts place else ts) }
{
    if place + 1 < trains.len() && trains[place].cars().is_empty() {
        trains.remove(place);
    }
}
