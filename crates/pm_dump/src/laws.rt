//! Laws of dumps. Each function's contract is the law, and the function does nothing.

ghost use Rattle.std.specs.Prelude.{◌≡◌, ◌⊎◌, ℕ, List};
ghost use Rattle.pm_model.specs.World.{Copy, Roots};
ghost use Rattle.pm_model.specs.Heap.{Heap};
ghost use Rattle.pm_model.specs.Copying.{copied};
ghost use Rattle.pm_dump.specs.declared.fault.DumpCause.{DumpCause as Cause};
ghost use Rattle.pm_dump.specs.Dump.{Dump, dump_of, copy_of_dump, dump_text_of};
ghost use Rattle.pm_dump.specs.Spelled.{Spells};
ghost use Rattle.pm_dump.specs.Sound.{IsSoundDump, HaveBytes, IsCopyInRange};
ghost use Rattle.pm_dump.specs.Faults.{FaultOf};

/// A law of dumps: bytes spell one dump at most, and the text of a dump that keeps what a dump keeps spells it.
pub fn a_dump_has_one_reading()
    ensures one { (bytes : List ℕ) (some other : Dump) → Spells bytes some → Spells bytes other → some ≡ other }
    ensures text { (dump : Dump) → IsSoundDump dump → HaveBytes dump → Spells (dump_text_of dump) dump }
{}

/// A law of bytes: they spell a dump that keeps what a dump keeps, or they have a fault, and not both; and they have
/// one fault at most.
pub fn a_dump_is_spelled_or_has_one_fault()
    ensures either { (bytes : List ℕ) → ((dump : Dump) × Spells bytes dump × IsSoundDump dump)
        ⊎ ((number : ℕ) × (cause : Cause) × FaultOf bytes number cause) }
    ensures not_both { (bytes : List ℕ) (dump : Dump) (number : ℕ) (cause : Cause) → Spells bytes dump
        → IsSoundDump dump → FaultOf bytes number cause → ⊥ }
    ensures one { (bytes : List ℕ) (number other : ℕ) (cause another : Cause) → FaultOf bytes number cause
        → FaultOf bytes other another → (number ≡ other) × (cause ≡ another) }
{}

/// A law of copies: the dump of each copy within the limits, in which whatever is named is an object, keeps what a dump
/// keeps, and its text spells it.
pub fn dumps_of_copies_are_read_again()
    ensures sound { (copy : Copy) → IsCopyInRange copy → IsSoundDump (dump_of copy) }
    ensures spelled { (copy : Copy) → IsCopyInRange copy → Spells (dump_text_of (dump_of copy)) (dump_of copy) }
{}

/// A law of copies: the copy with what stands in a copy's dump is that copy, and the dump of the copy with what stands
/// in a dump is that dump. What the roots reach of a copy that was made of a heap is all of it, also behind its dump.
pub fn a_dumps_copy()
    ensures copy { (copy : Copy) → copy_of_dump (dump_of copy) ≡ copy }
    ensures dump { (dump : Dump) → IsSoundDump dump → dump_of (copy_of_dump dump) ≡ dump }
    ensures reached { (heap : Heap) (roots : Roots) (next : ℕ)
        → copied (copy_of_dump (dump_of (copied heap roots next))).heap roots next ≡ copied heap roots next }
{}
