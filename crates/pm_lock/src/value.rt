//! A book as a value that workers take turns at.

ghost use Rattle.pm_place.specs.Choosers.{IsChooser};
ghost use Rattle.pm_engine.specs.Shown.{chooser};
ghost use Rattle.pm_lock.specs.Shown.{engine_in, first_in, lines_in};
ghost use Rattle.pm_lock.specs.Turns.{StepsBook};

use crate::Book;
use pm_disk::Disk;
use pm_engine::events::Engine;
use pm_script::Script;
use pm_turns::{Turn, Turned};
use std::alloc::Global;

/// What a book was made of. No value of this type is made.
pub struct Origin<D: Disk, F> {
    pub engine: Engine<D, F>,
    pub script: Script,
}

impl<D: Disk, F: Fn(&[u64]) -> usize + Drop> Turned for Book<D, F> {
    type Tie = Origin<D, F>;

    ghost tie = { λ book. record { engine = first_in book; script = lines_in book } };

    ghost sound = { λ book. IsChooser F.Fn (chooser (engine_in book)) };

    ghost turn = { λ old new who turn. StepsBook F.Fn who old new turn };

    fn take_turn(&mut self, alloc: Global, who: u32) -> Turn {
        self.step(alloc, who)
    }
}
