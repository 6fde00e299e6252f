//! What commands add to the work that is left of a collection. The function's contract is the law, and
//! the function does nothing.

ghost use Rattle.std.specs.Prelude.{ℕ, ◌+◌, ◌<◌, ◌≤◌};
ghost use Rattle.pm_types.specs.declared.limits.TheConstants.{CLIENTS};
ghost use Rattle.pm_types.specs.declared.command.Cmd.{Cmd};
ghost use Rattle.pm_view.specs.View.{SpaceView};
ghost use Rattle.pm_view.specs.Law.{HeapLaw};
ghost use Rattle.pm_view.specs.Commands.{row, Picks, ArePicked};
ghost use Rattle.pm_view.specs.Work.{work};
ghost use Rattle.pm_law_collect.specs.Work.Raises.{raises};

/// A law of work: a command adds at most six to the work that is left of a collection, and the one that empties all
/// registers of a client at most 3,072, which is three for each register.
pub fn a_command_adds_little_work()
    ensures { (view : SpaceView) (client : ℕ) (cmd : Cmd) (picks : Picks) → HeapLaw view → client < CLIENTS
        → ArePicked view picks
        → work (row view client cmd picks).1 ≤ work view + raises cmd }
{}
