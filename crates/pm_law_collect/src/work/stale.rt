//! Laws of the one slot of the car that is emptied which a stale source can name: the one whose object moved last. Each
//! function's contract is the law, and the function does nothing.

ghost use Rattle.std.specs.Prelude.{◌≡◌, ℕ, false, Option, ◌<◌};
ghost use Rattle.pm_types.specs.declared.address.Addr.{Addr};
ghost use Rattle.pm_types.specs.declared.command.Cmd.{Cmd};
ghost use Rattle.pm_types.specs.declared.limits.TheConstants.{CLIENTS};
ghost use Rattle.pm_types.specs.declared.source.RefSource.{RefSource};
ghost use Rattle.pm_view.specs.Candidates.{queue_of};
ghost use Rattle.pm_view.specs.Commands.{row, Picks, ArePicked};
ghost use Rattle.pm_view.specs.Events.{Row, fix, apply, next_row, after, MayPick, MayPlace, MovesTo};
ghost use Rattle.pm_view.specs.Law.{HeapLaw};
ghost use Rattle.pm_view.specs.Stale.{IsSole, NamesOnly};
ghost use Rattle.pm_view.specs.View.{SpaceView};
ghost use Rattle.pm_law_collect.specs.Work.Names.{front_names_gone};

/// A law of stale sources. After an event that moves an object, each source that the car which is emptied remembers and
/// that names a slot whose object moved away names the slot of that object: all sources of the objects that moved before
/// were fixed. An event that fixes a source leaves the one slot that can be named so, and an event that applies a
/// change too, where the change names no slot whose object moved away.
pub fn only_the_slot_that_moved_last_is_named()
    ensures moves { (view : SpaceView) (row : Row) (picked number train : ℕ) (a : Addr) → HeapLaw view
        → next_row view ≡ row → MayPick view picked row → MayPlace view number row
        → MovesTo picked row a train → NamesOnly (after view picked number row) a.slot }
    ensures fixes { (view : SpaceView) (car picked number : ℕ) (source : RefSource) (to : Addr) (slot : Option ℕ)
        → HeapLaw view → next_row view ≡ fix car source to → IsSole view slot
        → IsSole (after view picked number (fix car source to)) slot }
    ensures applies { (view : SpaceView) (car picked number : ℕ) (slot : Option ℕ)
        → front_names_gone view car (queue_of view car) ≡ false → IsSole view slot
        → IsSole (after view picked number (apply car)) slot }
{}

/// A law of stale sources: while a car is emptied no command changes what that car remembers, nor which of its slots
/// are those of objects that moved away. So the one slot that stale sources can name stays that slot.
pub fn a_command_leaves_the_slot_that_moved()
    ensures { (view : SpaceView) (client : ℕ) (cmd : Cmd) (picks : Picks) (slot : Option ℕ) → HeapLaw view
        → client < CLIENTS → ArePicked view picks → IsSole view slot
        → IsSole (row view client cmd picks).1 slot }
{}
