//! Events of the collector and flush events, and what an engine with a nursery came to.

ghost use Rattle.std.specs.Prelude.{◌≡◌};
ghost use Rattle.pm_place.specs.Choosers.{IsChooser};
ghost use Rattle.pm_young.specs.Seen.{chooser};

use pm_case_text::{Fault, push_filled, push_value, push_words};
use pm_disk::Disk;
use pm_types::EngineFault;
use pm_young::{YoungEngine, YoungTally};
use std::alloc::Global;

/// Adds why a call was not answered.
pub(crate) fn push_fault(fault: EngineFault, out: &mut String) -> Result<(), Fault> {
    match fault {
        EngineFault::Reopen { count } => push_filled("reopen %", &[count], out),
        EngineFault::Disk { before, after } => push_filled("disk fault % %", &[before, after], out),
        EngineFault::Memory(_) => push_words("no memory", out),
    }
}

// Makes an event of the collector, and adds what it answered.
fn push_step<D: Disk, F: Fn(&[u64]) -> usize + Drop>(
    alloc: Global,
    engine: &mut YoungEngine<D, F>,
    out: &mut String,
) -> Result<(), Fault>
    requires { IsChooser F.Fn (chooser engine.old) }
    ensures { chooser engine.new ≡ chooser engine.old }
{
    match engine.collect(alloc) {
        Ok(step) => push_value(&step, out),
        Err(fault) => push_fault(fault, out),
    }
}

/// Makes so many events of the collector, and adds what each answered, with `, ` between.
pub(crate) fn push_steps<D: Disk, F: Fn(&[u64]) -> usize + Drop>(
    alloc: Global,
    engine: &mut YoungEngine<D, F>,
    count: u64,
    out: &mut String,
) -> Result<(), Fault>
    requires { IsChooser F.Fn (chooser engine.old) }
    ensures { chooser engine.new ≡ chooser engine.old }
{
    for place in 0..count {
        if place > 0 {
            push_words(", ", out)?;
        }
        push_step(alloc, engine, out)?;
    }
    Ok(())
}

/// Makes a flush event, and adds what it answered.
pub(crate) fn push_flush<D: Disk, F: Drop>(
    alloc: Global,
    engine: &mut YoungEngine<D, F>,
    out: &mut String,
) -> Result<(), Fault>
    ensures { chooser engine.new ≡ chooser engine.old }
{
    match engine.flush(alloc) {
        Ok(flushed) => push_value(&flushed, out),
        Err(fault) => push_fault(fault, out),
    }
}

/// Adds what an engine came to.
pub(crate) fn push_tally(tally: &YoungTally, out: &mut String) -> Result<(), Fault> {
    let numbers = [
        tally.entries(),
        tally.events(),
        tally.steps(),
        tally.completed(),
        tally.standing(),
        tally.young(),
        tally.entered(),
    ];
    let text = "% entries, % events, % steps, % completed, % standing, % young, % entered";
    push_filled(text, &numbers, out)
}

/// Takes an engine apart, and adds what it came to.
pub(crate) fn push_parted<D: Disk + Drop, F: Drop>(
    engine: YoungEngine<D, F>,
    out: &mut String,
) -> Result<(), Fault> {
    let (_disk, _journal, tally, _heap) = engine.into_parts();
    push_tally(&tally, out)
}
