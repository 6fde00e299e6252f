//! Laws of what escapes at a command: it is what its carrying asks, no more and no less.

ghost use Rattle.std.specs.Prelude.{◌≡◌, ℕ, List, [], true, false, None, Some, IsSome, IsTrue, is_some};
ghost use Rattle.std.specs.FinMap.{get};
ghost use Rattle.pm_types.specs.declared.command.Cmd.{Cmd};
ghost use Rattle.pm_types.specs.declared.command.Cmd.TheVariants.{Bind, New};
ghost use Rattle.pm_model.specs.Answer.{answer, is_refusal};
ghost use Rattle.pm_model.specs.Frames.{makes_object};
ghost use Rattle.pm_model.specs.Heap.{Object, with_field};
ghost use Rattle.pm_model.specs.World.{World, held};
ghost use Rattle.pm_nursery.specs.Young.{NurseryView, no_nursery};
ghost use Rattle.pm_nursery.specs.Sweeping.{AreReached, GoesOut};
ghost use Rattle.pm_nursery.specs.Joined.{AreJoined};
ghost use Rattle.pm_nursery.specs.Moving.{young_changing};
ghost use Rattle.pm_nursery.specs.Escaping.{AreEscaping, Escapes, IsAscending, SetsField, bears, is_full, young_then};

/// A law of escapes: what escapes is what is joined to the value, to the object in the objects where its field is null,
/// or to the object that is bound; in a sweep it is what the nursery's registers reach. At a command that is refused,
/// and where both sides of a field are young or neither is, nothing escapes.
pub fn what_escapes_is_carried()
    ensures value { (world : World) (nursery : NurseryView) (client : ℕ) (cmd : Cmd) (reg index value object other : ℕ)
        (ids : List ℕ) → SetsField cmd reg index value → is_refusal cmd (answer world client cmd).0 ≡ false
        → held world client reg ≡ Some object → held world client value ≡ Some other → get nursery.objects object ≡ None
        → IsSome (get nursery.objects other) → AreEscaping world nursery client cmd ids
        → AreJoined nursery.objects other ids }
    ensures object { (world : World) (nursery : NurseryView) (client : ℕ) (cmd : Cmd) (reg index value object other : ℕ)
        (known : Object) (ids : List ℕ) → SetsField cmd reg index value
        → is_refusal cmd (answer world client cmd).0 ≡ false → held world client reg ≡ Some object
        → held world client value ≡ Some other → get nursery.objects object ≡ Some known
        → get nursery.objects other ≡ None → AreEscaping world nursery client cmd ids
        → AreJoined (young_changing nursery object (with_field known index None)).objects object ids }
    ensures name { (world : World) (nursery : NurseryView) (client : ℕ) (name : List ℕ) (reg object : ℕ) (ids : List ℕ)
        → is_refusal (Bind name reg) (answer world client (Bind name reg)).0 ≡ false
        → held world client reg ≡ Some object → IsSome (get nursery.objects object)
        → AreEscaping world nursery client (Bind name reg) ids → AreJoined nursery.objects object ids }
    ensures sweep { (world : World) (nursery : NurseryView) (client reg count : ℕ) (bytes ids : List ℕ)
        → is_refusal (New reg count bytes) (answer world client (New reg count bytes)).0 ≡ false
        → IsTrue (is_full nursery) → AreEscaping world nursery client (New reg count bytes) ids
        → AreReached nursery ids }
    ensures refused { (world : World) (nursery : NurseryView) (client : ℕ) (cmd : Cmd) (ids : List ℕ)
        → is_refusal cmd (answer world client cmd).0 ≡ true → AreEscaping world nursery client cmd ids → ids ≡ [] }
    ensures one_side { (world : World) (nursery : NurseryView) (client : ℕ) (cmd : Cmd)
        (reg index value object other : ℕ) (ids : List ℕ) → SetsField cmd reg index value
        → held world client reg ≡ Some object → held world client value ≡ Some other
        → is_some (get nursery.objects object) ≡ is_some (get nursery.objects other)
        → AreEscaping world nursery client cmd ids → ids ≡ [] }
{}

/// A law of escapes, the other way round: an ascending list of what is joined or reached is what escapes.
pub fn what_is_carried_escapes()
    ensures value { (world : World) (nursery : NurseryView) (client : ℕ) (cmd : Cmd) (reg index value object other : ℕ)
        (ids : List ℕ) → SetsField cmd reg index value → is_refusal cmd (answer world client cmd).0 ≡ false
        → held world client reg ≡ Some object → held world client value ≡ Some other → get nursery.objects object ≡ None
        → IsSome (get nursery.objects other) → IsAscending ids → AreJoined nursery.objects other ids
        → AreEscaping world nursery client cmd ids }
    ensures object { (world : World) (nursery : NurseryView) (client : ℕ) (cmd : Cmd) (reg index value object other : ℕ)
        (known : Object) (ids : List ℕ) → SetsField cmd reg index value
        → is_refusal cmd (answer world client cmd).0 ≡ false → held world client reg ≡ Some object
        → held world client value ≡ Some other → get nursery.objects object ≡ Some known
        → get nursery.objects other ≡ None → IsAscending ids
        → AreJoined (young_changing nursery object (with_field known index None)).objects object ids
        → AreEscaping world nursery client cmd ids }
    ensures name { (world : World) (nursery : NurseryView) (client : ℕ) (name : List ℕ) (reg object : ℕ) (ids : List ℕ)
        → is_refusal (Bind name reg) (answer world client (Bind name reg)).0 ≡ false
        → held world client reg ≡ Some object → IsSome (get nursery.objects object) → IsAscending ids
        → AreJoined nursery.objects object ids → AreEscaping world nursery client (Bind name reg) ids }
    ensures sweep { (world : World) (nursery : NurseryView) (client reg count : ℕ) (bytes ids : List ℕ)
        → is_refusal (New reg count bytes) (answer world client (New reg count bytes)).0 ≡ false
        → IsTrue (is_full nursery) → IsAscending ids → AreReached nursery ids
        → AreEscaping world nursery client (New reg count bytes) ids }
    ensures none { (world : World) (nursery : NurseryView) (client : ℕ) (cmd : Cmd)
        → ((id : ℕ) → Escapes world nursery client cmd id → ⊥) → AreEscaping world nursery client cmd [] }
{}

/// A law of what is young after a command: where no object is made, what did not go out; where one is, that one too, or
/// that one alone where the nursery was full, and so was swept.
pub fn what_is_young_then()
    ensures stays { (world : World) (nursery after : NurseryView) (client : ℕ) (cmd : Cmd) (ids : List ℕ) (id : ℕ)
        → makes_object cmd ≡ false → GoesOut nursery ids after
        → is_some (get after.objects id) ≡ young_then world nursery client cmd ids id }
    ensures born { (world : World) (nursery : NurseryView) (client : ℕ) (cmd : Cmd) (object : Object) (id : ℕ)
        → bears world client cmd ≡ true → is_full nursery ≡ false
        → is_some (get (young_changing nursery world.next object).objects id)
        ≡ young_then world nursery client cmd [] id }
    ensures swept { (world : World) (nursery : NurseryView) (client : ℕ) (cmd : Cmd) (object : Object) (ids : List ℕ)
        (id : ℕ) → bears world client cmd ≡ true → is_full nursery ≡ true
        → is_some (get (young_changing no_nursery world.next object).objects id)
        ≡ young_then world nursery client cmd ids id }
{}
