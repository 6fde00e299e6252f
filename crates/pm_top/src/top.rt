//! All that the program does but for its shell.
ghost use Rattle.std.specs.Prelude.{◌≡◌, ◌⊎◌, false, map};
ghost use Rattle.pm_types.specs.Counts.{Rose};
ghost use Rattle.pm_words.specs.declared.command.Command.{Command as One};
ghost use Rattle.pm_words.specs.Words.{AreShip, SpellsAlone, SpellsNothing};
ghost use Rattle.pm_place.specs.Choosers.{IsChooser};
ghost use Rattle.pm_runs.specs.Ends.Alone.{alone};
ghost use Rattle.pm_runs.specs.Ends.Ends.{ShowsOther, status_of};
ghost use Rattle.pm_runs.specs.Ends.Causes.{ShowsCauses};
ghost use Rattle.pm_top.specs.Commands.{IsUntouched, MayPerform, Does};
ghost use Rattle.pm_top.specs.Needs.{HasNeeds, NothingFails};
ghost use Rattle.pm_top.specs.Ships.{MayShip, ShipsStore};
ghost use Rattle.pm_types.specs.Memory.{no_memory};

use crate::made::{make_script, try_script};
use crate::making::make_store;
use crate::restoring::restore_store;
use crate::standby::ship_store;
use crate::telling::write_told;
use pm_disk::Disk;
use pm_inspect::tell::{DumpText, ReportText, WhyText};
use pm_io::{Sink, Source};
use pm_place::Placement;
use pm_runs::{
    Alone, Detail, Ended, Way, end_unopened, images_since_now, run_source, run_together, run_young,
};
use pm_turns::Gate;
use pm_words::{Asked, Command, read_words, words_spell_one_command};
use std::alloc::Global;
use std::sync::Wait;
use std::thread::Threads;

// Does what a command asks for. The two runs in threads alone wait.
fn perform<
    R: Threads + Wait + Sync,
    D: Disk + Drop + Send,
    S: Source,
    K: Sink,
    F: Fn(&[u64]) -> usize + Drop + Send,
    G: Gate + Sync,
>(
    rt: &R,
    alloc: Global,
    command: Command,
    disk: D,
    source: S,
    sink: K,
    place: Placement<F>,
    gate: &G,
) -> Alone<D, S, K>
    requires may { MayPerform command }
    requires chooser { IsChooser F.Fn place }
    ensures status { result.status ≡ status_of result.detail }
    ensures causes { ShowsCauses D.Disk S.Source K.Sink disk source sink result }
    ensures does { Does D.Disk S.Source K.Sink place command disk source sink result }
{
    match command {
        Command::Init => make_store(alloc, disk, source, sink),
        Command::Run => run_source(alloc, disk, place, source, sink),
        Command::RunThreads => {
            run_together(rt, alloc, Way::Turns, disk, place, source, sink, gate)
        }
        Command::RunSeats => run_together(rt, alloc, Way::Passes, disk, place, source, sink, gate),
        Command::RunYoung => run_young(alloc, disk, place, source, sink),
        Command::Inspect => write_told(alloc, &ReportText, disk, source, sink),
        Command::Dump => write_told(alloc, &DumpText, disk, source, sink),
        Command::Restore => restore_store(alloc, disk, source, sink),
        Command::Why { id } => write_told(alloc, &WhyText { id }, disk, source, sink),
        Command::Make { seed, turns } => make_script(alloc, seed, turns, disk, source, sink),
        Command::Trial { seed, turns } => {
            try_script(alloc, seed, turns, disk, place, source, sink)
        }
    }
}

/// Does all that the program does. The words are read with `clap`.
///
/// `init FILE` makes a store on the disk, where that is empty: copy 0, of no object and no root. It calls neither the
/// source nor the sink.
///
/// `run FILE serial` reads the source to its end, reads the script, opens the store, runs the script's lines in their
/// order over an engine, which begins as the copy that was opened, and writes a reply line for each command. `save`
/// begins a copy of what the roots reach, and `settle` puts that copy on the disk. `! gc N` makes N events of the
/// collector, and `! flush N` makes N that write a page of that copy each, while one is left. Behind the last reply come
/// the end line and a line for each watch.
///
/// `run FILE threads` does the same in threads: one for each client, one for the events of the collector and one for
/// those that write pages. Each client's commands are asked in the order of its lines, and nothing else of the order is
/// promised; around each event the gate is called. The replies are written behind the last event. It waits for the
/// threads, and all that is promised of it holds once it returns. The first fault ends them all.
///
/// `run FILE seats` does the same by workers each of which has a pass of its own, and ends at the first fault that it
/// meets: where memory runs out for one, the others go on. It waits too; every other command waits for nobody.
///
/// `run FILE young` does the same as `run FILE serial` over an engine with a nursery: a new object is young, outside the
/// cars, until it escapes, and a young object that nothing reaches is dropped by the next sweep. A sweep is made by the line
/// `! young`, and where 256 objects are young by a `new`. No line asks for a watch. Behind the end line comes one more:
/// how many objects are young, and how many entered a car.
///
/// `inspect FILE` opens the store and writes its report. Nothing is written to the disk.
///
/// `dump FILE` opens the store and writes the dump of its copy. Nothing is written to the disk.
///
/// `restore FILE` reads the source to its end, as a dump, makes a store on the disk, where that is empty, and settles in it
/// the dump's objects and names as copy 1: its objects in ascending order of their identities, each car filled before the
/// next is begun, in train 1. The sink is not called.
///
/// `why FILE ID` opens the store and writes a path from a name to the object of this identity, or `none` where no name
/// reaches it. Nothing is written to the disk.
///
/// `make SEED N` writes the script of this seed and of N turns. The disk is not called.
///
/// `trial FILE SEED N` runs that script as `run FILE serial` does, and writes the SHA-256 of the text of the replies in
/// place of that text. The source is not called.
///
/// `ship FILE OTHER` brings the store of the other disk to the last settled copy of that of the first, and writes how many
/// pages that took. The first store is not written. No other command calls the other disk.
///
/// An object moves to the train that the chooser of `place` picks.
///
/// It is meant as the last thing that a process does: `run`, `trial`, `inspect`, `dump` and `why` leave the memory of
/// their heap to the process, so who calls them again and again keeps what each left.
///
/// What the disks and the source hold and what the sink has is said where they tell it.
pub fn pmos<
    R: AllocGlobal + Threads + Wait + Sync,
    D: Disk + Drop + Send,
    E: Disk + Drop + Send,
    S: Source,
    K: Sink,
    F: Fn(&[u64]) -> usize + Drop + Send,
    G: Gate + Sync,
>(
    rt: &R,
    words: &[&str],
    disk: D,
    other: E,
    source: S,
    sink: K,
    place: Placement<F>,
    gate: &G,
) -> Ended<D, E, S, K>
    requires chooser { IsChooser F.Fn place }
    ensures status { result.status ≡ status_of result.detail }

    // Whatever the words are, an end has its cause, which is the first. Want of memory alone may come at any time.
    ensures causes { ShowsCauses D.Disk S.Source K.Sink disk source sink (alone result) }
    ensures other_causes { ShowsOther result.detail (E.count other) (E.count result.other) }

    // Words that ask for nothing are refused, and no others, and all is as it was.
    ensures usage { result.detail ≡ Detail.Usage → SpellsNothing (map (λ word. word.now) words.now) }
    ensures refused { SpellsNothing (map (λ word. word.now) words.now)
        → (result.detail ≡ Detail.Usage) ⊎ (result.detail ≡ Detail.Memory false no_memory) }
    ensures untouched { SpellsNothing (map (λ word. word.now) words.now)
        → IsUntouched disk source sink (alone result) × (result.other ≡ other) }

    // What each command does. The other disk is called by none of them. The engine of a run has this chooser.
    ensures does { (command : One) → SpellsAlone (map (λ word. word.now) words.now) command
        → Does D.Disk S.Source K.Sink place command disk source sink (alone result)
        × (result.other ≡ other) }

    // With what it needs a command is done, or memory ran out, unless disk, source or sink fails.
    ensures complete { (command : One) → SpellsAlone (map (λ word. word.now) words.now) command
        → HasNeeds D.Disk S.Source command disk source
        → NothingFails D.Disk S.Source K.Sink disk source sink (alone result)
        → (result.status ≡ 0) ⊎ (result.status ≡ 7) }

    // What a ship does, and what it needs.
    ensures ships { AreShip (map (λ word. word.now) words.now)
        → ShipsStore D.Disk E.Disk K.Sink disk other source sink result }
    ensures ship_complete { AreShip (map (λ word. word.now) words.now) → MayShip D.Disk E.Disk disk other
        → NothingFails D.Disk S.Source K.Sink disk source sink (alone result)
        → (Rose (E.count other) (E.count result.other) → ⊥) → (result.status ≡ 0) ⊎ (result.status ≡ 7) }
{
    words_spell_one_command();
    images_since_now(&disk);
    images_since_now(&other);
    let alloc = rt.alloc();
    match read_words(alloc, words) {
        Ok(Some(Asked::Alone(command))) => {
            perform(rt, alloc, command, disk, source, sink, place, gate).beside(other)
        }
        Ok(Some(Asked::Ship)) => ship_store(alloc, disk, other, source, sink),
        Ok(None) => end_unopened(alloc, Detail::Usage, disk, source, sink).beside(other),
        Err(refused) => {
            let detail = Detail::Memory {
                opened: false,
                refused,
            };
            end_unopened(alloc, detail, disk, source, sink).beside(other)
        }
    }
}
