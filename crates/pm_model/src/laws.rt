ghost use Rattle.std.specs.Prelude.{◌≡◌, ◌≤◌, ℕ, List, [], ◌∷◌, ◌++◌, IsTrue, Bool, true, false, Some, IsSome, IsSomeAnd, if◌then◌else◌};
ghost use Rattle.std.specs.List.{last_or};
ghost use Rattle.std.specs.Prelude.{None};
ghost use Rattle.std.specs.FinMap.{get};
ghost use Rattle.pm_types.specs.declared.command.Cmd.{Cmd};
ghost use Rattle.pm_types.specs.declared.command.Cmd.TheVariants.{Bind, Unbind, Find, Save, Unsave};
ghost use Rattle.pm_types.specs.declared.reply.Reply.TheVariants.{Done, Ident, NoRoot, Begun, Saved, Dropped};
ghost use Rattle.pm_types.specs.declared.entry.Entry.{Entry};
ghost use Rattle.pm_types.specs.declared.limits.TheConstants.{LAST_COPY};
ghost use Rattle.pm_model.specs.World.{World, Copy, Roots, begin, held, IsNumbered};
ghost use Rattle.pm_model.specs.Answer.{answer, is_refusal};
ghost use Rattle.pm_model.specs.Copying.{copied, copy, IsRoot};
ghost use Rattle.pm_model.specs.declared.request.Request.{Request};
ghost use Rattle.pm_model.specs.Journal.{IsLegal, after, chain, settled_in, settled_along, says_saved, part, requests_of, commands_of, IsFirstPart};
ghost use Rattle.pm_model.specs.Closed.{IsClosed, IsAlike};
ghost use Rattle.pm_model.specs.Heap.{Object, Heap, Holds};
ghost use Rattle.pm_model.specs.Reachability.{IsReachable};

/// A law of reachability: what is reachable is the least that contains what begins and, with an
/// object, what that object holds.
pub fn reachable_is_least_closed()
    ensures begins { (heap : Heap) (starts : ℕ → Bool) (id : ℕ) → IsTrue (starts id)
        → IsReachable heap (λ x. IsTrue (starts x)) id }
    ensures closed { (heap : Heap) (starts : ℕ → Bool) (from to : ℕ) → IsReachable heap (λ x. IsTrue (starts x)) from
        → Holds heap from to
        → IsReachable heap (λ x. IsTrue (starts x)) to }
    ensures least { (heap : Heap) (starts inside : ℕ → Bool) → ((id : ℕ) → IsTrue (starts id) → IsTrue (inside id))
        → ((from to : ℕ) → IsTrue (inside from) → Holds heap from to → IsTrue (inside to))
        → (id : ℕ) → IsReachable heap (λ x. IsTrue (starts x)) id → IsTrue (inside id) }
{}

/// A law of answers: a refusal gives the same world back.
pub fn refusals_keep_the_world()
    ensures { (world : World) (client : ℕ) (cmd : Cmd) → is_refusal cmd (answer world client cmd).0 ≡ true
        → (answer world client cmd).1 ≡ world }
{}

/// A law of objects: whatever is asked, none is ever taken away, and none gets more or fewer fields or
/// bytes.
pub fn no_object_is_taken_away()
    ensures alike { (world : World) (journal : List Entry) (id : ℕ) (object : Object) → IsClosed world
        → get world.heap id ≡ Some object
        → IsSomeAnd (get (after world journal).heap id) (IsAlike object) }
    ensures stays { (world : World) (journal : List Entry) (id : ℕ) → IsSome (get world.heap id)
        → IsSome (get (after world journal).heap id) }
{}

/// A law of names: what a register held when a name was bound to it is what any client finds there next.
/// Nobody finds anything where a name was unbound.
pub fn what_is_bound_is_found()
    ensures unbound { (world : World) (client other to : ℕ) (name : List ℕ)
        → (answer (answer world client (Unbind name)).1 other (Find to name)).0 ≡ NoRoot }
    ensures bound { (world : World) (client reg other to : ℕ) (name : List ℕ)
        → (answer world client (Bind name reg)).0 ≡ Done
        → IsSomeAnd (held world client reg) (λ id. (answer (answer world client (Bind name reg)).1 other
        (Find to name)).0 ≡ Ident id) }
{}

/// A law of copies: of a heap with these roots exactly the objects that the roots reach are kept, each
/// as it is, with the roots and the next identity. A copy that is copied again is the same.
pub fn a_copy_keeps_what_the_roots_reach()
    ensures kept { (heap : Heap) (roots : Roots) (next id : ℕ) (object : Object)
        → get (copied heap roots next).heap id ≡ Some object
        → (get heap id ≡ Some object) × IsReachable heap (IsRoot roots) id }
    ensures reached { (heap : Heap) (roots : Roots) (next id : ℕ) (object : Object)
        → IsReachable heap (IsRoot roots) id → get heap id ≡ Some object
        → get (copied heap roots next).heap id ≡ Some object }
    ensures roots { (heap : Heap) (roots : Roots) (next : ℕ) → (copied heap roots next).roots ≡ roots }
    ensures next { (heap : Heap) (roots : Roots) (next : ℕ) → (copied heap roots next).next ≡ next }
    ensures again { (heap : Heap) (roots : Roots) (next : ℕ)
        → copied (copied heap roots next).heap roots next ≡ copied heap roots next }
    ensures world { (world : World) → copy world ≡ copied world.heap world.roots world.next }
{}

/// A law of chains: the last member of a legal journal's chain is the copy that has settled at the
/// journal's end.
pub fn a_chain_ends_at_the_settled_copy()
    ensures { (world : World) (journal : List Entry) → IsLegal world journal
        → last_or None (chain world journal) ≡ Some (settled_in (after world journal)) }
{}

/// A law of journals that grow: what one more entry does to the world at the end, to the chain, and to
/// whether the journal is legal.
pub fn an_entry_goes_at_the_end()
    ensures after { (world : World) (journal : List Entry) (entry : Entry)
        → after world (journal ++ entry ∷ []) ≡ (answer (after world journal) entry.client entry.cmd).1 }
    ensures legal { (world : World) (journal : List Entry) (entry : Entry) → IsLegal world journal
        → entry.reply ≡ (answer (after world journal) entry.client entry.cmd).0
        → IsLegal world (journal ++ entry ∷ []) }
    ensures front { (world : World) (journal : List Entry) (entry : Entry) → IsLegal world (journal ++ entry ∷ [])
        → IsLegal world journal × (entry.reply ≡ (answer (after world journal) entry.client entry.cmd).0) }
    ensures chain { (world : World) (journal : List Entry) (entry : Entry)
        → chain world (journal ++ entry ∷ []) ≡ chain world journal ++
        (if says_saved entry.reply then settled_in (after world (journal ++ entry ∷ [])) ∷ [] else []) }
{}

/// A law of journals one behind the other: what two of them come to is what the second comes to where
/// the first ends. Where a journal serves the first of what is asked, each client's part of it is the
/// first part of what that client asks.
pub fn journals_go_one_behind_the_other()
    ensures after { (world : World) (one two : List Entry) → after world (one ++ two) ≡ after (after world one) two }
    ensures legal { (world : World) (one two : List Entry) → IsLegal world one → IsLegal (after world one) two
        → IsLegal world (one ++ two) }
    ensures parts { (world : World) (one two : List Entry) → IsLegal world (one ++ two) → IsLegal world one
        × IsLegal (after world one) two }
    ensures chain { (world : World) (one two : List Entry)
        → chain world (one ++ two) ≡ chain world one ++ settled_along (after world one) two }
    ensures part { (client : ℕ) (one two : List Entry) → part client (one ++ two) ≡ part client one ++ part client two }
    ensures first { (client : ℕ) (journal : List Entry) (asked : List Request)
        → IsFirstPart (requests_of journal) asked → IsFirstPart (part client journal) (commands_of client asked) }
{}

/// A law of dropping: what is dropped was in progress and is none from then on. It is in no chain, and
/// its number begins again.
pub fn a_dropped_copy_is_in_no_chain()
    ensures dropped { (world : World) (client number : ℕ) → (answer world client Unsave).0 ≡ Dropped number
        → IsSomeAnd world.saving (λ begun. begun.0 ≡ number) × ((answer world client Unsave).1.saving ≡ None)
        × (settled_in (answer world client Unsave).1 ≡ settled_in world) }
    ensures chain { (world : World) (journal : List Entry) (entry : Entry) (number : ℕ)
        → entry.reply ≡ Dropped number → chain world (journal ++ entry ∷ []) ≡ chain world journal }
    ensures again { (world : World) (client other number : ℕ) → IsNumbered world
        → (answer world client Unsave).0 ≡ Dropped number
        → (answer (answer world client Unsave).1 other Save).0 ≡ Begun number }
{}

/// A law of settling: a reply says that a copy settled exactly where the copy in progress, with its
/// number, is from then on the one that settled last. After every other reply the settled one is as before.
pub fn what_settles_was_in_progress()
    ensures saved { (world : World) (client number : ℕ) (cmd : Cmd) → (answer world client cmd).0 ≡ Saved number
        → (world.saving ≡ Some (settled_in (answer world client cmd).1))
        × ((answer world client cmd).1.settled ≡ number) × ((answer world client cmd).1.saving ≡ None) }
    ensures same { (world : World) (client : ℕ) (cmd : Cmd) → says_saved (answer world client cmd).0 ≡ false
        → settled_in (answer world client cmd).1 ≡ settled_in world }
{}

/// A law of numbers: in the world of an opened copy and in every later one, the copy in progress has the
/// number after the one that settled last, and no number is over the last one.
pub fn copies_are_numbered_in_order()
    ensures begin { (number : ℕ) (copy : Copy) → number ≤ LAST_COPY → IsNumbered (begin number copy) }
    ensures after { (world : World) (journal : List Entry) → IsNumbered world → IsNumbered (after world journal) }
{}
