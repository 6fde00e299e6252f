//! Scripts that are made from a seed: one is written, and one is run on a store.
ghost use Rattle.std.specs.Prelude.{◌≡◌, ◌≤◌, IfOk};
ghost use Rattle.pm_place.specs.Choosers.{IsChooser};
ghost use Rattle.pm_script.specs.Script.{IsScript};
ghost use Rattle.pm_make.specs.Made.{made_text};
ghost use Rattle.pm_runs.specs.Ends.Ends.{status_of};
ghost use Rattle.pm_runs.specs.Ends.Causes.{ShowsCauses};
ghost use Rattle.pm_top.specs.Commands.{MakesScript, TriesScript};

use pm_disk::Disk;
use pm_io::{Sink, Source};
use pm_make::{a_seed_gives_a_script, make, make_lines};
use pm_place::Placement;
use pm_runs::{Alone, Detail, Writes, end_unopened, run_lines, write_text};
use pm_script::Line;
use pm_types::{MOST_TURNS, NoMemory};
use std::alloc::Global;

// The lines of the script of a seed and a number of turns, which are made and not read: its text has one reading.
fn script(alloc: Global, seed: u32, turns: u32) -> Result<Vec<Line>, NoMemory>
    requires { turns ≤ MOST_TURNS }
    ensures { IfOk result (λ lines. IsScript (made_text seed turns) lines.items) }
{
    a_seed_gives_a_script();
    make_lines(alloc, seed, turns)
}

/// Writes the script of a seed and a number of turns.
pub(crate) fn make_script<D: Disk, S: Source, K: Sink>(
    alloc: Global,
    seed: u32,
    turns: u32,
    disk: D,
    source: S,
    mut sink: K,
) -> Alone<D, S, K>
    requires { turns ≤ MOST_TURNS }
    ensures status { result.status ≡ status_of result.detail }
    ensures causes { ShowsCauses D.Disk S.Source K.Sink disk source sink result }
    ensures makes { MakesScript K.Sink seed turns disk source sink result }
{
    let detail = match make(alloc, seed, turns) {
        Ok(text) => write_text(&mut sink, text.as_slice()),
        Err(refused) => Detail::Memory {
            opened: false,
            refused,
        },
    };
    end_unopened(alloc, detail, disk, source, sink)
}

/// Runs the script of a seed and a number of turns on the store on the disk, and writes the digest of the replies.
pub(crate) fn try_script<D: Disk, F: Fn(&[u64]) -> usize + Drop, S: Source, K: Sink>(
    alloc: Global,
    seed: u32,
    turns: u32,
    disk: D,
    place: Placement<F>,
    source: S,
    sink: K,
) -> Alone<D, S, K>
    requires turns { turns ≤ MOST_TURNS }
    requires chooser { IsChooser F.Fn place }
    ensures status { result.status ≡ status_of result.detail }
    ensures causes { ShowsCauses D.Disk S.Source K.Sink disk source sink result }
    ensures tries { TriesScript D.Disk K.Sink place seed turns disk source sink result }
{
    match script(alloc, seed, turns) {
        Ok(lines) => run_lines(alloc, Writes::Digest, lines, disk, place, source, sink),
        Err(refused) => {
            let detail = Detail::Memory {
                opened: false,
                refused,
            };
            end_unopened(alloc, detail, disk, source, sink)
        }
    }
}
