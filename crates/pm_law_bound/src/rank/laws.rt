//! Laws of the rank. Each function's contract is a law, and the function does nothing.

ghost use Rattle.std.specs.Prelude.{◌≡◌, ◌⊎◌, ◌<◌, ℕ, ◌+◌, ◌*◌, true, [], length};
ghost use Rattle.pm_types.specs.declared.limits.TheConstants.{CLIENTS};
ghost use Rattle.pm_types.specs.declared.command.Cmd.{Cmd};
ghost use Rattle.pm_types.specs.Registers.{HasRegisters};
ghost use Rattle.pm_view.specs.View.{SpaceView};
ghost use Rattle.pm_view.specs.Law.{HeapLaw};
ghost use Rattle.pm_view.specs.Events.{Row, next_row, after, completes, MayPick, MayPlace};
ghost use Rattle.pm_view.specs.Commands.{row, Picks, ArePicked};
ghost use Rattle.pm_view.specs.Ranking.{Fits, up_to, rank};
ghost use Rattle.pm_view.specs.Bounded.{KeepsRank};

/// A law of events: whichever comes next, and whatever train is picked where one is, what fits stays, and the rank has
/// not risen; where a collection was completed it has fallen, unless it was 0, also where the count stands still.
pub fn an_event_keeps_the_rank()
    ensures keeps { (view : SpaceView) (row : Row) (picked number : ℕ) → HeapLaw view → next_row view ≡ row
        → MayPick view picked row → MayPlace view number row
        → KeepsRank view (after view picked number row) }
    ensures falls { (view : SpaceView) (row : Row) (picked number : ℕ) → HeapLaw view → next_row view ≡ row
        → MayPick view picked row → MayPlace view number row
        → completes view row ≡ true → (n m : ℕ) → Fits view n m
        → (rank view n m ≡ 0) ⊎ (rank (after view picked number row) n m < rank view n m) }
{}

/// A law of commands: what fits stays, and the rank has not risen.
pub fn a_command_keeps_the_rank()
    ensures { (view : SpaceView) (client : ℕ) (cmd : Cmd) (picks : Picks) → HeapLaw view → client < CLIENTS
        → HasRegisters cmd → ArePicked view picks
        → KeepsRank view (row view client cmd picks).1 }
{}

/// A law of bounds: where the objects in the trains numbered up to one are at most so many, the rank is below the
/// bound of a watch that counts these trains and objects; and it is 0 just where none of these trains stands.
pub fn the_rank_is_bounded()
    ensures below { (view : SpaceView) (number objects : ℕ) → HeapLaw view → Fits view number objects
        → 0 < length (up_to number view.trains.trains)
        → rank view number objects
        < length (up_to number view.trains.trains) * ((objects + 2) * (objects + 2)) }
    ensures none { (view : SpaceView) (number objects : ℕ) → HeapLaw view → rank view number objects ≡ 0
        → up_to number view.trains.trains ≡ [] }
    ensures empty { (view : SpaceView) (number objects : ℕ) → up_to number view.trains.trains ≡ []
        → rank view number objects ≡ 0 }
{}
