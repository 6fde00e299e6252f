//! Laws of the words by which the top call is stated. Each function's contract is the law, and the function does
//! nothing.
ghost use Rattle.std.specs.Prelude.{◌≡◌, ◌<◌, ℕ, List, [], ◌++◌, Some};
ghost use Rattle.pm_types.specs.declared.entry.Entry.{Entry};
ghost use Rattle.pm_disk.specs.Disk.{LeavesOnly};
ghost use Rattle.pm_disk.specs.declared.disk.Disk as disk;
ghost use Rattle.pm_model.specs.World.{begin};
ghost use Rattle.pm_model.specs.Journal.{after};
ghost use Rattle.pm_model.specs.Closed.{IsClosed};
ghost use Rattle.pm_ship.specs.History.{AreCommands, Command, StandsForOne, settled_at_last};
ghost use Rattle.pm_runs.specs.declared.ends.ended.Detail.{Detail as End};
ghost use Rattle.pm_runs.specs.declared.ends.ended.Detail.TheVariants.{Fine};
ghost use Rattle.pm_runs.specs.declared.ends.ended.Alone.{Alone};
ghost use Rattle.pm_runs.specs.Ends.Stages.{behind, unreached};
ghost use Rattle.pm_runs.specs.Ends.Journals.{IsBegun};
ghost use Rattle.pm_top.specs.Commands.{MakesStore};

use pm_disk::Disk;
use pm_io::{Sink, Source};

/// A law of stages: what an end has behind comes before what it did not reach.
pub fn ends_lie_between_stages()
    ensures { (detail : End) → behind detail < unreached detail }
{}

/// A law of runs, also over a disk that tells nothing: wherever a run stands, whatever a root, a register or a field
/// names is an object, in the copies too.
pub fn a_run_stays_closed()
    ensures now { (journal : List Entry) (run : IsBegun journal)
        → IsClosed (after (begin run.number run.copy) journal) }
    ensures ever { (first rest : List Entry) (run : IsBegun (first ++ rest))
        → IsClosed (after (begin run.number run.copy) first) }
{}

/// A law of a standby over its history, of commands: `init` made a store on an empty disk, and then `ship` brought it to a
/// first store, again and again, while that one settled its copies. At every moment since the store was made each image of
/// the standby stands for copy 0 of nothing, or for a copy that the first store had settled by then, whatever the commands
/// answered.
pub fn a_standby_that_was_made_has_a_settled_copy<D: Disk, E: Disk, S: Source, K: Sink>()
    ensures { (empty : E) (source : S) (sink : K) (made : Alone E S K) (bytes : List ℕ) (end : E)
        (commands : List (Command D.Disk E.Disk)) → E.contents empty ≡ Some bytes
        → MakesStore E.Disk empty source sink made → made.detail ≡ Fine
        → AreCommands D.Disk E.Disk made.disk [] commands end
        → LeavesOnly E.moment E.since made.disk end (StandsForOne (settled_at_last D.Disk E.Disk [] commands)) }
{}
