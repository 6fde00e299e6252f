//! Which train an object moves to, of those that it may move to.

ghost use Rattle.std.specs.Prelude.{◌<◌, length};

use pm_case_text::{Fault, refuse};
use pm_place::{first_of, last_of, middle_of};

/// Which train an object moves to.
#[derive(Clone, Copy)]
pub(crate) enum Chosen {
    /// The first of those that it may move to.
    First,
    /// The last of them.
    Last,
    /// The one in the middle, the later one of two.
    Middle,
}

/// The choice of this name.
pub(crate) fn read_chosen(word: &str) -> Result<Chosen, Fault> {
    match word {
        "first" => Ok(Chosen::First),
        "last" => Ok(Chosen::Last),
        "middle" => Ok(Chosen::Middle),
        _ => Err(refuse("no such step")),
    }
}

/// The place in a list of trains of the one that is chosen.
pub(crate) fn place_of(chosen: Chosen, trains: &[u64]) -> usize
    requires { 0 < length trains.now }
    ensures { result < length trains.now }
{
    match chosen {
        Chosen::First => first_of(trains),
        Chosen::Last => last_of(trains),
        Chosen::Middle => middle_of(trains),
    }
}
