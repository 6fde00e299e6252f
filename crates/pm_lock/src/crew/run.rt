//! A whole run in threads.

ghost use Rattle.std.specs.Prelude.{◌≡◌, None};
ghost use Rattle.pm_place.specs.Choosers.{IsChooser};
ghost use Rattle.pm_engine.specs.Shown.{chooser, serving};
ghost use Rattle.pm_lock.specs.Shown.{engine_in, fault_in, first_in, lines_in};
ghost use Rattle.pm_lock.specs.Crew.Whole.{MakesAllOf};

use crate::Book;
use crate::crew::finish::finish;
use pm_disk::Disk;
use pm_turns::{Gate, take_turns};
use std::alloc::Global;
use std::sync::Wait;
use std::thread::Threads;

/// Makes all that is left of a book: eight clients, the collector and the flusher, each in a thread of its own, each with
/// the book to itself for one event at a time, until each has finished or a fault is kept. Where no fault is kept, the
/// journal serves the script, and all events of the collector and flush events are made. What the book was made of stays;
/// all else that is known of it is a law of every book.
///
/// Waits for the threads. Where none can be made, or there is no memory for this, the workers go one after another.
pub fn run_all<
    D: Disk + Drop + Send,
    F: Fn(&[u64]) -> usize + Drop + Send,
    G: Gate + Sync,
    R: Threads + Wait + Sync,
>(rt: &R, alloc: Global, book: Book<D, F>, gate: &G) -> Book<D, F>
    requires { IsChooser F.Fn (chooser (engine_in book)) }
    ensures first { first_in result ≡ first_in book }
    ensures lines { lines_in result ≡ lines_in book }
    ensures all { fault_in result ≡ None → MakesAllOf (lines_in book) (serving (engine_in result)) }
{
    let mut book = take_turns(rt, alloc, book, gate);
    finish(alloc, &mut book);
    book.keep_its_script();
    book
}
