//! A logbook as a value that callers share.

ghost use Rattle.pm_seats.specs.Shown.{first_in, log_in, next_in, numbers_in};

use crate::Logbook;
use pm_disk::Disk;
use pm_engine::Engine;
use pm_passes::Logged;
use pm_types::Entry;

impl<D: Disk, F: Drop> Logged for Logbook<D, F> {
    type Entry = Entry;

    type Tie = Engine<D, F>;

    ghost log = { λ book. log_in book };

    ghost next = { λ book. next_in book };

    ghost numbers = { λ book. numbers_in book };

    ghost tie = { λ book. first_in book };

    ghost sound = { λ book. Unit {0} };

    fn draw(&mut self) -> Option<u64> {
        Logbook::draw(self)
    }
}
