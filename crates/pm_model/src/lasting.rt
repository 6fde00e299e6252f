//! What commands leave as it is, and what lasts while they pass. Each function's contract is the law, and
//! the function does nothing.

ghost use Rattle.std.specs.Prelude.{◌≡◌, ℕ, List, Option, Some, None, false, IsSomeAnd};
ghost use Rattle.std.specs.FinMap.{get};
ghost use Rattle.pm_types.specs.declared.command.Cmd.{Cmd};
ghost use Rattle.pm_types.specs.declared.command.Cmd.TheVariants.{Load, Store, Clear, Swap};
ghost use Rattle.pm_types.specs.declared.reply.Reply.TheVariants.{Done};
ghost use Rattle.pm_types.specs.declared.entry.Entry.{Entry};
ghost use Rattle.pm_model.specs.Heap.{Heap};
ghost use Rattle.pm_model.specs.World.{World, Roots, Copy, begin, empty_world, held};
ghost use Rattle.pm_model.specs.Copying.{copied};
ghost use Rattle.pm_model.specs.Answer.{answer};
ghost use Rattle.pm_model.specs.Journal.{after, settled_in};
ghost use Rattle.pm_model.specs.Frames.{makes_object, changed_name, sets_register, saves, is_settle, sets_watch, Makes, MayChange};
ghost use Rattle.pm_model.specs.Closed.{IsClosedGraph, IsClosedCopy, IsClosed, IsWithinLimits};
ghost use Rattle.pm_model.specs.Lasting.{field_at, IsUntouched, loaded};

/// A law of commands: what each leaves as it is, whatever it answers. Registers of other clients always
/// stay.
pub fn commands_leave_the_rest()
    ensures object { (world : World) (client : ℕ) (cmd : Cmd) (id : ℕ) → (Makes world cmd id → ⊥)
        → (MayChange world client cmd id → ⊥)
        → get (answer world client cmd).1.heap id ≡ get world.heap id }
    ensures next { (world : World) (client : ℕ) (cmd : Cmd) → makes_object cmd ≡ false
        → (answer world client cmd).1.next ≡ world.next }
    ensures name { (world : World) (client : ℕ) (cmd : Cmd) (name : List ℕ) → (changed_name cmd ≡ Some name → ⊥)
        → get (answer world client cmd).1.roots name ≡ get world.roots name }
    ensures register { (world : World) (client : ℕ) (cmd : Cmd) (register : ℕ) → sets_register cmd register ≡ false
        → held (answer world client cmd).1 client register ≡ held world client register }
    ensures others { (world : World) (client : ℕ) (cmd : Cmd) (other register : ℕ) → (other ≡ client → ⊥)
        → held (answer world client cmd).1 other register ≡ held world other register }
    ensures settled { (world : World) (client : ℕ) (cmd : Cmd) → is_settle cmd ≡ false
        → settled_in (answer world client cmd).1 ≡ settled_in world }
    ensures saving { (world : World) (client : ℕ) (cmd : Cmd) → saves cmd ≡ false
        → (answer world client cmd).1.saving ≡ world.saving }
    ensures watches { (world : World) (client : ℕ) (cmd : Cmd) → sets_watch cmd ≡ false
        → (answer world client cmd).1.watches ≡ world.watches }
{}

/// A law of fields: a field that was stored, cleared or swapped holds just that, what it holds is what
/// `load` answers, and it holds the same until a command changes this field of this object.
pub fn a_stored_field_is_loaded()
    ensures stored { (world : World) (client reg index value : ℕ)
        → (answer world client (Store reg index value)).0 ≡ Done
        → IsSomeAnd (held world client reg) (λ id. field_at (answer world client
        (Store reg index value)).1 id index ≡ Some (held world client value)) }
    ensures cleared { (world : World) (client reg index : ℕ) → (answer world client (Clear reg index)).0 ≡ Done
        → IsSomeAnd (held world client reg) (λ id. field_at (answer world client
        (Clear reg index)).1 id index ≡ Some None) }
    ensures swapped { (world : World) (client reg index old value : ℕ)
        → (answer world client (Swap reg index old value)).0 ≡ Done
        → IsSomeAnd (held world client reg) (λ id. (field_at world id index ≡ Some (held world client old))
        × (field_at (answer world client (Swap reg index old value)).1 id index ≡ Some (held world client value))) }
    ensures loaded { (world : World) (client to reg index id : ℕ) (content : Option ℕ)
        → held world client reg ≡ Some id → field_at world id index ≡ Some content
        → ((answer world client (Load to reg index)).0 ≡ loaded content)
        × (held (answer world client (Load to reg index)).1 client to ≡ content) }
    ensures lasts { (world : World) (journal : List Entry) (id index : ℕ) (content : Option ℕ) → IsClosed world
        → field_at world id index ≡ Some content
        → IsUntouched world journal id index → field_at (after world journal) id index ≡ Some content }
{}

/// A law of closed worlds: where each root, register and field names an object, and identities are below
/// the next one, they do so whatever is asked, in the copies too. Objects, names and watches stay within
/// the limits.
pub fn worlds_stay_closed()
    ensures empty { IsClosed empty_world }
    ensures begin { (number : ℕ) (copy : Copy) → IsClosedCopy copy → IsClosed (begin number copy) }
    ensures copied { (heap : Heap) (roots : Roots) (next : ℕ) → IsClosedGraph heap roots next
        → IsClosedCopy (copied heap roots next) }
    ensures after { (world : World) (journal : List Entry) → IsClosed world → IsClosed (after world journal) }
    ensures unlimited { IsWithinLimits empty_world }
    ensures limits { (world : World) (journal : List Entry) → IsWithinLimits world
        → IsWithinLimits (after world journal) }
{}
