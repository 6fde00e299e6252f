//! What an engine serves, call by call. Each function's contract is a law, and the function does nothing.

ghost use Rattle.std.specs.Prelude.{◌≡◌, ◌<◌, ◌≤◌, ◌+◌, ℕ, List, length, Option, Some, None, true, false};
ghost use Rattle.std.specs.FinMap.{get};
ghost use Rattle.pm_types.specs.declared.limits.TheConstants.{LAST_COPY, WATCHES};
ghost use Rattle.pm_types.specs.declared.command.Cmd.{Cmd};
ghost use Rattle.pm_types.specs.declared.command.Cmd.TheVariants.{Save, Settle, Unsave, Watch};
ghost use Rattle.pm_types.specs.declared.reply.Reply.{Reply};
ghost use Rattle.pm_types.specs.declared.reply.Reply.TheVariants.{Begun, Busy, SavesSpent, Saved, Idle, Dropped, TooManyWatches, Watching};
ghost use Rattle.pm_model.specs.World.{World};
ghost use Rattle.pm_model.specs.Answer.{answer};
ghost use Rattle.pm_model.specs.Copying.{copy};
ghost use Rattle.pm_image.specs.declared.catalog.CatEntry.{CatEntry};
ghost use Rattle.pm_view.specs.View.{SpaceView};
ghost use Rattle.pm_view.specs.Law.{HeapLaw};
ghost use Rattle.pm_view.specs.Commands.{is_act};
ghost use Rattle.pm_view.specs.Represents.{Represents};
ghost use Rattle.pm_copies.specs.Listed.{Listed, copy_in};
ghost use Rattle.pm_copies.specs.Accepted.{IsAccepted};
ghost use Rattle.pm_copies.specs.Opened.{IsOpened};
ghost use Rattle.pm_saving.specs.Progress.{Progress, Saving, cars_or_none, copy_of};
ghost use Rattle.pm_shadow.specs.State.{State};
ghost use Rattle.pm_saving.specs.Serving.{IsServed, KeepsJournal, Serving, just_opened, world};
ghost use Rattle.pm_saving.specs.Images.{IsStored, KeepsImages};
ghost use Rattle.pm_saving.specs.Events.{Appends, Collects, Flushes, Serves, ServesNothing, StaysBegun};

use pm_disk::Disk;

/// A law of serving: the engine of a space that was just opened serves the world of the copy in it.
pub fn an_engine_begins_to_serve()
    ensures { (number : ℕ) (listed : List Listed) (catalog : List CatEntry) (next : ℕ) (view : SpaceView)
        (saving : Saving) → IsAccepted listed catalog next → IsOpened listed catalog next view
        → saving.progress ≡ None → IsServed (just_opened number view saving) }
{}

/// A law of journal and copies: where each command is answered as the world answers, and does to the copies what its row
/// says, they are kept, whatever the space is.
pub fn a_kept_command_goes_on()
    // No object has the next identity.
    ensures fresh { (it : Serving) → KeepsJournal it → get (world it).heap (world it).next ≡ None }
    // A command on the space leaves the copies.
    ensures act { (client : ℕ) (cmd : Cmd) (old new : Serving) (reply : Reply) → KeepsJournal old
        → is_act cmd ≡ true → Appends client cmd old new reply → reply ≡ (answer (world old) client cmd).0
        → new.frozen ≡ old.frozen → new.saving ≡ old.saving → KeepsJournal new }
    // `save`: a copy is in progress, or the numbers are spent, or the copy of the world is begun.
    ensures busy { (client : ℕ) (old new : Serving) (begun : Progress) → KeepsJournal old
        → old.saving.progress ≡ Some begun → Appends client Save old new (Busy begun.number)
        → new.frozen ≡ old.frozen → new.saving ≡ old.saving
        → Serves client Save old new (Busy begun.number) × KeepsJournal new }
    ensures spent { (client : ℕ) (old new : Serving) → KeepsJournal old → old.saving.progress ≡ None
        → (world old).settled ≡ LAST_COPY → Appends client Save old new SavesSpent
        → new.frozen ≡ old.frozen → new.saving ≡ old.saving
        → Serves client Save old new SavesSpent × KeepsJournal new }
    ensures begun { (client : ℕ) (old new : Serving) (begun : Progress) → KeepsJournal old
        → old.saving.progress ≡ None → (world old).settled < LAST_COPY → begun.number ≡ (world old).settled + 1
        → Appends client Save old new (Begun begun.number) → new.saving.progress ≡ Some begun
        → copy_of (cars_or_none new.frozen) begun ≡ copy (world old)
        → Serves client Save old new (Begun begun.number) × KeepsJournal new }
    // `settle` and `unsave`: none is in progress, or the one in progress is settled or dropped.
    ensures idle { (client : ℕ) (old new : Serving) → KeepsJournal old → old.saving.progress ≡ None
        → Appends client Settle old new Idle → new.frozen ≡ old.frozen → new.saving ≡ old.saving
        → Serves client Settle old new Idle × KeepsJournal new }
    ensures saved { (client : ℕ) (old new : Serving) (begun : Progress) → KeepsJournal old
        → old.saving.progress ≡ Some begun → Appends client Settle old new (Saved begun.number)
        → new.saving.progress ≡ None → Serves client Settle old new (Saved begun.number) × KeepsJournal new
        × ((world new).settled ≡ begun.number) × ((world new).settled_copy ≡ copy_of (cars_or_none old.frozen) begun) }
    ensures undropped { (client : ℕ) (old new : Serving) → KeepsJournal old → old.saving.progress ≡ None
        → Appends client Unsave old new Idle → new.frozen ≡ old.frozen → new.saving ≡ old.saving
        → Serves client Unsave old new Idle × KeepsJournal new }
    ensures dropped { (client : ℕ) (old new : Serving) (begun : Progress) → KeepsJournal old
        → old.saving.progress ≡ Some begun → Appends client Unsave old new (Dropped begun.number)
        → new.saving.progress ≡ None → Serves client Unsave old new (Dropped begun.number) × KeepsJournal new }
    // `watch`: one more is set, or as many are as may be.
    ensures watching { (client : ℕ) (old new : Serving) → KeepsJournal old → length old.watches < WATCHES
        → Appends client Watch old new (Watching (length old.watches + 1)) → new.frozen ≡ old.frozen
        → new.saving ≡ old.saving
        → Serves client Watch old new (Watching (length old.watches + 1)) × KeepsJournal new }
    ensures full { (client : ℕ) (old new : Serving) → KeepsJournal old → WATCHES ≤ length old.watches
        → Appends client Watch old new TooManyWatches → new.frozen ≡ old.frozen → new.saving ≡ old.saving
        → Serves client Watch old new TooManyWatches × KeepsJournal new }
{}

/// A law of journal and copies: they are kept over an event of the collector, over a flush event that leaves the copy in
/// progress but for its pages, and where nothing was answered.
pub fn what_is_kept_is_left()
    ensures collected { (old new : Serving) → KeepsJournal old → Collects old new → KeepsJournal new }
    ensures flushed { (old new : Serving) → KeepsJournal old → Flushes old new
        → StaysBegun old.saving.progress new.saving.progress → KeepsJournal new }
    ensures unanswered { (old new : Serving) → KeepsJournal old → ServesNothing old new → KeepsJournal new }
{}

/// A law of journal and copies: what is kept of them, what is stored and what a crash leaves know nothing of the space.
pub fn what_is_kept_needs_no_space<D: Disk>()
    ensures journal { (it : Serving) (view : SpaceView) → KeepsJournal it → KeepsJournal (record it { view = view }) }
    ensures stored { (it : Serving) (view : SpaceView) (s : State) (opened contents : Option (List ℕ))
        → IsStored it s opened contents → IsStored (record it { view = view }) s opened contents }
    ensures images { (it : Serving) (view : SpaceView) (opened disk : D)
        → KeepsImages D.contents D.image D.moment D.since opened it disk
        → KeepsImages D.contents D.image D.moment D.since opened (record it { view = view }) disk }
{}

/// A law of copies: a space that stands for a world stands for the world after a command that is none on the space.
pub fn copies_leave_what_a_space_stands_for()
    ensures { (view : SpaceView) (world : World) (client : ℕ) (cmd : Cmd) → is_act cmd ≡ false
        → Represents view world → Represents view (answer world client cmd).1 }
{}

/// A law of serving: where each command does to space and copies what its row says, the reply is the world's, and the
/// engine serves the next world.
pub fn a_served_command_goes_on()
    // No object has the next identity.
    ensures fresh { (it : Serving) → IsServed it → get (world it).heap (world it).next ≡ None }
    // A command on the space leaves the copies.
    ensures act { (client : ℕ) (cmd : Cmd) (old new : Serving) (reply : Reply) → IsServed old → is_act cmd ≡ true
        → Appends client cmd old new reply → reply ≡ (answer (world old) client cmd).0
        → Represents new.view (answer (world old) client cmd).1 → new.frozen ≡ old.frozen → new.saving ≡ old.saving
        → IsServed new }
    // `save`: a copy is in progress, or the numbers are spent, or the copy of the space is begun.
    ensures busy { (client : ℕ) (old new : Serving) (begun : Progress) → IsServed old
        → old.saving.progress ≡ Some begun → Appends client Save old new (Busy begun.number) → new.view ≡ old.view
        → new.frozen ≡ old.frozen → new.saving ≡ old.saving
        → Serves client Save old new (Busy begun.number) × IsServed new }
    ensures spent { (client : ℕ) (old new : Serving) → IsServed old → old.saving.progress ≡ None
        → (world old).settled ≡ LAST_COPY → Appends client Save old new SavesSpent → new.view ≡ old.view
        → new.frozen ≡ old.frozen → new.saving ≡ old.saving → Serves client Save old new SavesSpent × IsServed new }
    ensures begun { (client : ℕ) (old new : Serving) (begun : Progress) → IsServed old → HeapLaw old.view
        → old.saving.progress ≡ None → (world old).settled < LAST_COPY → begun.number ≡ (world old).settled + 1
        → Appends client Save old new (Begun begun.number) → new.view ≡ old.view
        → new.saving.progress ≡ Some begun → copy_of (cars_or_none new.frozen) begun ≡ copy_in old.view
        → Serves client Save old new (Begun begun.number) × IsServed new }
    // `settle` and `unsave`: none is in progress, or the one in progress is settled or dropped.
    ensures idle { (client : ℕ) (old new : Serving) → IsServed old → old.saving.progress ≡ None
        → Appends client Settle old new Idle → new.view ≡ old.view → new.frozen ≡ old.frozen
        → new.saving ≡ old.saving → Serves client Settle old new Idle × IsServed new }
    ensures saved { (client : ℕ) (old new : Serving) (begun : Progress) → IsServed old
        → old.saving.progress ≡ Some begun → Appends client Settle old new (Saved begun.number)
        → new.view ≡ old.view → new.saving.progress ≡ None
        → Serves client Settle old new (Saved begun.number) × IsServed new
        × ((world new).settled ≡ begun.number) × ((world new).settled_copy ≡ copy_of (cars_or_none old.frozen) begun) }
    ensures undropped { (client : ℕ) (old new : Serving) → IsServed old → old.saving.progress ≡ None
        → Appends client Unsave old new Idle → new.view ≡ old.view → new.frozen ≡ old.frozen
        → new.saving ≡ old.saving → Serves client Unsave old new Idle × IsServed new }
    ensures dropped { (client : ℕ) (old new : Serving) (begun : Progress) → IsServed old
        → old.saving.progress ≡ Some begun → Appends client Unsave old new (Dropped begun.number)
        → new.view ≡ old.view → new.saving.progress ≡ None
        → Serves client Unsave old new (Dropped begun.number) × IsServed new }
    // `watch`: one more is set, or as many are as may be.
    ensures watching { (client : ℕ) (old new : Serving) → IsServed old → length old.watches < WATCHES
        → Appends client Watch old new (Watching (length old.watches + 1)) → new.view ≡ old.view
        → new.frozen ≡ old.frozen → new.saving ≡ old.saving
        → Serves client Watch old new (Watching (length old.watches + 1)) × IsServed new }
    ensures full { (client : ℕ) (old new : Serving) → IsServed old → WATCHES ≤ length old.watches
        → Appends client Watch old new TooManyWatches → new.view ≡ old.view
        → new.frozen ≡ old.frozen → new.saving ≡ old.saving
        → Serves client Watch old new TooManyWatches × IsServed new }
{}

/// A law of serving: an event of the collector that leaves the worlds for which the space stands leaves what is served.
pub fn an_event_leaves_what_is_served()
    ensures { (old new : Serving) → IsServed old → Collects old new
        → ((world : World) → Represents old.view world → Represents new.view world) → IsServed new }
{}

/// A law of serving: where it is known in some way that what is stored fits, it does.
pub fn what_is_stored_is_told()
    ensures { (it : Serving) (s : State) (opened contents : Option (List ℕ)) → ∥ IsStored it s opened contents ∥₁
        → IsStored it s opened contents }
{}
