//! Laws of engines with a nursery. Each function's contract is the law, and the function does nothing.

ghost use Rattle.std.specs.Prelude.{◌≡◌, ◌<◌, ℕ, false, Option, Some, None};
ghost use Rattle.std.specs.FinMap.{get};
ghost use Rattle.pm_types.specs.Counts.{Rose};
ghost use Rattle.pm_types.specs.declared.fault.EngineFault.{EngineFault};
ghost use Rattle.pm_types.specs.declared.fault.EngineFault.TheVariants.{Memory, Disk as Failed, Reopen};
ghost use Rattle.pm_types.specs.declared.no_memory.NoMemory.{NoMemory};
ghost use Rattle.pm_nursery.specs.Sweeping.{among};
ghost use Rattle.pm_young.specs.declared.engine.YoungEngine.{YoungEngine};
ghost use Rattle.pm_young.specs.declared.halt.Halt.{Halt};
ghost use Rattle.pm_young.specs.AnyCall.{IsCalled, IsOkOrMemory};
ghost use Rattle.pm_young.specs.Calls.{HaltsForDisk, HaltsForMemory, YoungGoesOn};
ghost use Rattle.pm_young.specs.Entering.{IsPresent};
ghost use Rattle.pm_young.specs.Seen.{disk_in, entered_in, halt_in, serving, young_in};

use pm_disk::Disk;

/// A law of calls: an engine to which nothing happens goes on, and what goes on may go on further.
pub fn a_young_engine_goes_on<D: Disk, F: Drop>()
    ensures itself { (it : YoungEngine D F D.Disk) → YoungGoesOn it it }
    ensures further { (one two three : YoungEngine D F D.Disk) → YoungGoesOn one two → YoungGoesOn two three
        → YoungGoesOn one three }
{}

/// A law of calls: any call that makes an event goes on, whatever it answers.
pub fn any_call_goes_on<D: Disk, F: Fn(&[u64]) -> usize + Drop>()
    ensures { (old new : YoungEngine D F D.Disk) (fault : Option EngineFault) → IsCalled F.Fn old new fault
        → YoungGoesOn old new }
{}

/// A law of what died young: an identity that was given, is neither young nor entered and is in no car of the space
/// that was opened is in no car ever after, standing or not.
pub fn what_died_young_never_comes_in<D: Disk, F: Drop>()
    ensures { (it later : YoungEngine D F D.Disk) (id : ℕ) → YoungGoesOn it later → id < (serving it).view.next
        → get (young_in it).objects id ≡ None → among (entered_in it) id ≡ false
        → (IsPresent (serving it).opened id → ⊥) → IsPresent (serving later).view id → ⊥ }
{}

/// A law of halts, over any call that makes an event. Where memory runs out, or the disk fails, the engine answers no
/// more from then on, with the disk's count of that moment: each further call answers `Reopen` with this count, and
/// changes nothing. While no call has answered either, and the disk's count does not rise, a call answers Ok or `Memory`.
pub fn memory_halts<D: Disk, F: Fn(&[u64]) -> usize + Drop>()
    ensures memory { (old new : YoungEngine D F D.Disk) (refused : NoMemory)
        → IsCalled F.Fn old new (Some (Memory refused)) → HaltsForMemory old new }
    ensures disk { (old new : YoungEngine D F D.Disk) (before after : ℕ)
        → IsCalled F.Fn old new (Some (Failed before after)) → HaltsForDisk old new before after }
    ensures after { (old new : YoungEngine D F D.Disk) (halt : Halt) (fault : Option EngineFault)
        → halt_in old ≡ Some halt → IsCalled F.Fn old new fault → (fault ≡ Some (Reopen halt.count)) × (new ≡ old) }
    ensures running { (old new : YoungEngine D F D.Disk) (fault : Option EngineFault) → halt_in old ≡ None
        → (Rose (D.count (disk_in old)) (D.count (disk_in new)) → ⊥) → IsCalled F.Fn old new fault → IsOkOrMemory fault }
{}
