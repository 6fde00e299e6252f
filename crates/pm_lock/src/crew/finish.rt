//! What is left once the workers have ended, made by the caller itself.

ghost use Rattle.std.specs.Prelude.{◌≡◌, ◌<◌, ℕ, None};
ghost use Rattle.pm_turns.specs.declared.limits.TheConstants.{WORKERS};
ghost use Rattle.pm_place.specs.Choosers.{IsChooser};
ghost use Rattle.pm_engine.specs.Shown.{chooser};
ghost use Rattle.pm_lock.specs.Shown.{engine_in, fault_in};
ghost use Rattle.pm_lock.specs.Turns.{HasNothing};
ghost use Rattle.pm_lock.specs.Crew.Whole.{LastsBook};

use crate::Book;
use pm_disk::Disk;
use pm_turns::{Turn, WORKERS};
use std::alloc::Global;

// Makes the turns of a worker until it has finished, or the book is stopped.
fn finish_one<D: Disk, F: Fn(&[u64]) -> usize + Drop>(
    alloc: Global,
    book: &mut Book<D, F>,
    who: u32,
)
    requires who { who < WORKERS }
    requires chooser { IsChooser F.Fn (chooser (engine_in book.old)) }
    ensures lasts { LastsBook book.old book.new }
    ensures nothing { fault_in book.new ≡ None → HasNothing who book.new }
{
    loop {
        match book.step(alloc, who) {
            Turn::Made => {}
            Turn::Finished | Turn::Stopped => return,
        }
    }
}

/// Makes the turns of each worker until it has finished, or the book is stopped.
pub(crate) fn finish<D: Disk, F: Fn(&[u64]) -> usize + Drop>(alloc: Global, book: &mut Book<D, F>)
    requires { IsChooser F.Fn (chooser (engine_in book.old)) }
    ensures lasts { LastsBook book.old book.new }
    ensures nothing { fault_in book.new ≡ None → (who : ℕ) → who < WORKERS → HasNothing who book.new }
{
    for who in 0..WORKERS {
        finish_one(alloc, book, who);
    }
}
