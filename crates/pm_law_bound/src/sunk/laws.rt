//! Laws of sunk sets. Each function's contract is a law, and the function does nothing.

ghost use Rattle.std.specs.Prelude.{◌≡◌, ◌<◌, ◌≤◌, ℕ, Bool, IsTrue};
ghost use Rattle.pm_types.specs.declared.limits.TheConstants.{CLIENTS};
ghost use Rattle.pm_types.specs.declared.address.Addr.{Addr};
ghost use Rattle.pm_types.specs.declared.command.Cmd.{Cmd};
ghost use Rattle.pm_types.specs.Registers.{HasRegisters};
ghost use Rattle.pm_trains.specs.Trains.{youngest, is_among};
ghost use Rattle.pm_model.specs.World.{World};
ghost use Rattle.pm_model.specs.Answer.{answer};
ghost use Rattle.pm_model.specs.Closed.{IsClosed};
ghost use Rattle.pm_view.specs.View.{SpaceView};
ghost use Rattle.pm_view.specs.Law.{HeapLaw};
ghost use Rattle.pm_view.specs.Represents.{Represents};
ghost use Rattle.pm_view.specs.Events.{Row, start, move_out, next_row, after, ways_out, MayPick, MayPlace};
ghost use Rattle.pm_view.specs.Commands.{row, Picks, ArePicked};
ghost use Rattle.pm_view.specs.Bounded.{KeepsSunk};
ghost use Rattle.pm_view.specs.Sinking.{IsOf, Sunk, Passes, IsLost};

/// A law of the collector: a set that was sunk is sunk after each event, whatever train is picked where one is.
pub fn an_event_keeps_sunk_sets()
    ensures { (view : SpaceView) (row : Row) (picked number : ℕ) → HeapLaw view → next_row view ≡ row
        → MayPick view picked row → MayPlace view number row
        → KeepsSunk view (after view picked number row) }
{}

/// A law of commands: a set that was sunk is sunk after each command of a client.
pub fn a_command_keeps_sunk_sets()
    ensures { (view : SpaceView) (client : ℕ) (cmd : Cmd) (picks : Picks) → HeapLaw view → client < CLIENTS
        → HasRegisters cmd → ArePicked view picks
        → KeepsSunk view (row view client cmd picks).1 }
{}

/// A law of picks: where a member of a set that is sunk up to a train is to move out of its own train, or is to be
/// noted as the anchor, each train that may be picked for it is numbered up to that one.
pub fn a_member_goes_to_a_low_train()
    ensures out { (view : SpaceView) (a : Addr) (picked n : ℕ) (test : ℕ → Bool) → HeapLaw view
        → Sunk view (Passes test) n → next_row view ≡ move_out a → IsOf view (Passes test) a
        → IsTrue (is_among picked (ways_out view a)) → picked ≤ n }
    ensures noted { (view : SpaceView) (car : ℕ) (a : Addr) (picked n : ℕ) (test : ℕ → Bool) → HeapLaw view
        → Sunk view (Passes test) n → next_row view ≡ start car a → IsOf view (Passes test) a
        → IsTrue (is_among picked (ways_out view a)) → picked ≤ n }
    ensures lost_out { (view : SpaceView) (a : Addr) (picked n : ℕ) (world : World) → HeapLaw view
        → Sunk view (IsLost world) n → next_row view ≡ move_out a → IsOf view (IsLost world) a
        → IsTrue (is_among picked (ways_out view a)) → picked ≤ n }
    ensures lost_noted { (view : SpaceView) (car : ℕ) (a : Addr) (picked n : ℕ) (world : World) → HeapLaw view
        → Sunk view (IsLost world) n → next_row view ≡ start car a → IsOf view (IsLost world) a
        → IsTrue (is_among picked (ways_out view a)) → picked ≤ n }
{}

/// A law of watches: what a world has lost is sunk, up to the open train, in each space that stands for the world.
pub fn what_a_world_has_lost_is_sunk()
    ensures { (view : SpaceView) (world : World) → HeapLaw view → Represents view world
        → Sunk view (IsLost world) (youngest view.trains.trains) }
{}

/// A law of worlds: what a world has lost stays lost, whatever is asked. So the lost set is what its name says.
pub fn what_is_lost_stays_lost()
    ensures { (world : World) (client : ℕ) (cmd : Cmd) (id : ℕ) → IsClosed world → IsLost world id
        → IsLost (answer world client cmd).1 id }
{}
