//! Laws of young worlds. Each function's contract is the law, and the function does nothing.

ghost use Rattle.std.specs.Prelude.{◌≡◌, ℕ, ◌+◌, ◌<◌, Bool, List, IsTrue, true, None, Some, IsSome};
ghost use Rattle.std.specs.FinMap.{get, len};
ghost use Rattle.pm_types.specs.declared.limits.TheConstants.{CLIENTS, REGISTERS};
ghost use Rattle.pm_nursery.specs.declared.limits.TheConstants.{YOUNG};
ghost use Rattle.pm_model.specs.Heap.{Heap, Holds, Object, with_field};
ghost use Rattle.pm_model.specs.World.{World, changing, closing, emptying, holding, naming, unbinding, with_object};
ghost use Rattle.pm_model.specs.Closed.{IsClosed};
ghost use Rattle.pm_model.specs.Copying.{copy};
ghost use Rattle.pm_model.specs.Reachability.{IsReachable};
ghost use Rattle.pm_view.specs.Represents.{IsHeld};
ghost use Rattle.pm_nursery.specs.Young.{NurseryView, IsNursery, IsSmall, IsYoung, if_young, no_nursery};
ghost use Rattle.pm_nursery.specs.Joined.{AreJoined, IsJoined, Touches};
ghost use Rattle.pm_nursery.specs.Moving.{Names, young_changing, young_closing, young_forgetting, young_holding};
ghost use Rattle.pm_nursery.specs.Sweeping.{among, AreReached, AreYoung, ComesIn, GoesOut, IsDetached};

/// A law of further objects: what is neither within nor young is named by no name, no register, no object within and no
/// young object.
pub fn nothing_names_a_further_object()
    ensures held { (within world : World) (nursery : NurseryView) (id : ℕ) → IsYoung within nursery world
        → IsNursery nursery → IsHeld world id → get within.heap id ≡ None → IsSome (get nursery.objects id) }
    ensures within { (within world : World) (nursery : NurseryView) (from to : ℕ) → IsYoung within nursery world
        → Holds within.heap from to → IsSome (get within.heap to) }
    ensures young { (nursery : NurseryView) (from to : ℕ) → IsNursery nursery → Holds nursery.objects from to
        → IsSome (get nursery.objects to) }
{}

/// A law of escapes: where young objects come in that hold no other one and that no other one holds, with the registers
/// that name them, the world within and the nursery stand for the same world.
pub fn an_escape_changes_no_world()
    ensures world { (within world later : World) (nursery after : NurseryView) (ids : List ℕ)
        → IsYoung within nursery world → IsNursery nursery → AreYoung nursery ids → IsDetached nursery.objects ids
        → ComesIn within nursery ids later → GoesOut nursery ids after → IsYoung later after world }
    ensures nursery { (nursery after : NurseryView) (ids : List ℕ) → IsNursery nursery
        → IsDetached nursery.objects ids → GoesOut nursery ids after → IsNursery after }
{}

/// A law of sweeps: where the young objects come in that the nursery's registers reach, and all others are dropped, the
/// world within and the empty nursery stand for the same world. Of the young objects just those came in that the
/// world's names and registers reach.
pub fn a_sweep_drops_what_nothing_reaches()
    ensures world { (within world later : World) (nursery : NurseryView) (ids : List ℕ)
        → IsYoung within nursery world → IsNursery nursery → AreReached nursery ids
        → ComesIn within nursery ids later → IsYoung later no_nursery world }
    ensures kept { (within world : World) (nursery : NurseryView) (ids : List ℕ) (id : ℕ)
        → IsYoung within nursery world → IsNursery nursery → AreReached nursery ids
        → IsSome (get nursery.objects id) → IsReachable world.heap (IsHeld world) id → among ids id ≡ true }
    ensures only { (within world : World) (nursery : NurseryView) (ids : List ℕ) (id : ℕ)
        → IsYoung within nursery world → AreReached nursery ids → among ids id ≡ true
        → IsReachable world.heap (IsHeld world) id }
{}

/// A law of copies: the copy of the world within is the copy of the world.
pub fn a_young_worlds_copy()
    ensures { (within world : World) (nursery : NurseryView) → IsYoung within nursery world → copy within ≡ copy world }
{}

/// A law of what is joined: it is the least that has the object and, with one, each that it holds or that holds it; it
/// goes both ways; and no object outside it holds one inside, nor the other way round.
pub fn what_is_joined_is_detached()
    ensures itself { (objects : Heap) (id : ℕ) → IsJoined objects id id }
    ensures next { (objects : Heap) (id from to : ℕ) → IsJoined objects id from → Touches objects from to
        → IsJoined objects id to }
    ensures least { (objects : Heap) (id other : ℕ) (inside : ℕ → Bool) → IsTrue (inside id)
        → ((from to : ℕ) → IsTrue (inside from) → Touches objects from to → IsTrue (inside to))
        → IsJoined objects id other → IsTrue (inside other) }
    ensures back { (objects : Heap) (from to : ℕ) → IsJoined objects from to → IsJoined objects to from }
    ensures detached { (objects : Heap) (id : ℕ) (ids : List ℕ) → AreJoined objects id ids → IsDetached objects ids }
{}

/// A law of nurseries: the objects are the world's, and a register of the nursery is the world's where that holds a
/// young object.
pub fn a_nursery_is_of_its_world()
    ensures objects { (within world : World) (nursery : NurseryView) (id : ℕ) (object : Object)
        → IsYoung within nursery world → get nursery.objects id ≡ Some object → get world.heap id ≡ Some object }
    ensures registers { (within world : World) (nursery : NurseryView) (place : ℕ × ℕ) → IsYoung within nursery world
        → IsNursery nursery
        → get nursery.registers place ≡ if_young nursery.objects (get world.registers place) }
{}

/// A law of openings: a closed world and no nursery stand for that world.
pub fn a_world_is_young_with_nothing()
    ensures { (world : World) → IsClosed world → IsYoung world no_nursery world }
{}

/// A law of steps: what one step of a command does within, in the nursery, or in both, it does to the world. Whatever
/// else stays.
pub fn a_young_world_goes_on()
    ensures old_object { (within world : World) (nursery : NurseryView) (id : ℕ) (object : Object)
        → IsYoung within nursery world → IsSome (get within.heap id) → Names within.heap object
        → IsYoung (changing within id object) nursery (changing world id object) }
    ensures young_object { (within world : World) (nursery : NurseryView) (id : ℕ) (object : Object)
        → IsYoung within nursery world → IsSome (get nursery.objects id)
        → IsYoung within (young_changing nursery id object) (changing world id object) }
    ensures born { (within world : World) (nursery : NurseryView) (object : Object) → IsYoung within nursery world
        → get world.heap world.next ≡ None
        → IsYoung (record within { next = within.next + 1 }) (young_changing nursery world.next object)
        (with_object world object) }
    ensures old_register { (within world : World) (nursery : NurseryView) (client reg id : ℕ)
        → IsYoung within nursery world → IsSome (get within.heap id)
        → IsYoung (holding within client reg id) (young_forgetting nursery client reg) (holding world client reg id) }
    ensures young_register { (within world : World) (nursery : NurseryView) (client reg id : ℕ)
        → IsYoung within nursery world
        → IsYoung (emptying within client reg) (young_holding nursery client reg id) (holding world client reg id) }
    ensures no_register { (within world : World) (nursery : NurseryView) (client reg : ℕ)
        → IsYoung within nursery world
        → IsYoung (emptying within client reg) (young_forgetting nursery client reg) (emptying world client reg) }
    ensures no_registers { (within world : World) (nursery : NurseryView) (client : ℕ) → IsYoung within nursery world
        → IsYoung (closing within client) (young_closing nursery client) (closing world client) }
    ensures name { (within world : World) (nursery : NurseryView) (name : List ℕ) (id : ℕ)
        → IsYoung within nursery world → IsSome (get within.heap id)
        → IsYoung (naming within name id) nursery (naming world name id) }
    ensures no_name { (within world : World) (nursery : NurseryView) (name : List ℕ) → IsYoung within nursery world
        → IsYoung (unbinding within name) nursery (unbinding world name) }
{}

/// A law of fields: where a field of a young object is set to an object within, it is made null first, what is joined
/// to the object then comes in, and the field is set within: so the world's field is set, and what the field held
/// before does not count.
pub fn a_field_is_set_to_an_old_object()
    ensures { (within world later : World) (nursery after : NurseryView) (id index value : ℕ) (known : Object)
        (ids : List ℕ) → IsYoung within nursery world → IsNursery nursery → get nursery.objects id ≡ Some known
        → IsSome (get within.heap value)
        → AreJoined (young_changing nursery id (with_field known index None)).objects id ids
        → ComesIn within (young_changing nursery id (with_field known index None)) ids later
        → GoesOut (young_changing nursery id (with_field known index None)) ids after
        → IsYoung (changing later id (with_field known index (Some value))) after
        (changing world id (with_field known index (Some value))) }
{}

/// A law of nurseries: each step keeps the limits, and what fields and registers name.
pub fn a_nursery_stays_closed()
    ensures object { (nursery : NurseryView) (id : ℕ) (object : Object) → IsNursery nursery
        → IsSome (get nursery.objects id) → IsSmall object → Names nursery.objects object
        → IsNursery (young_changing nursery id object) }
    ensures born { (nursery : NurseryView) (id : ℕ) (object : Object) → IsNursery nursery
        → len nursery.objects < YOUNG → IsSmall object → Names nursery.objects object
        → IsNursery (young_changing nursery id object) }
    ensures held { (nursery : NurseryView) (client reg id : ℕ) → IsNursery nursery → client < CLIENTS
        → reg < REGISTERS → IsSome (get nursery.objects id) → IsNursery (young_holding nursery client reg id) }
    ensures forgotten { (nursery : NurseryView) (client reg : ℕ) → IsNursery nursery
        → IsNursery (young_forgetting nursery client reg) }
    ensures closed { (nursery : NurseryView) (client : ℕ) → IsNursery nursery
        → IsNursery (young_closing nursery client) }
{}
