//! What holds of the dumps of stores. Each function's contract is a law, and the function does nothing.
ghost use Rattle.std.specs.Prelude.{◌≡◌, ℕ, List};
ghost use Rattle.pm_model.specs.Heap.{Heap};
ghost use Rattle.pm_model.specs.World.{Copy, Roots};
ghost use Rattle.pm_model.specs.Copying.{copied};
ghost use Rattle.pm_image.specs.CarAnswers.{AreBytes};
ghost use Rattle.pm_image.specs.Stands.{StandsForCopy};
ghost use Rattle.pm_dump.specs.Dump.{Dump, dump_of, dump_text_of};
ghost use Rattle.pm_dump.specs.Spelled.{Spells};
ghost use Rattle.pm_dump.specs.Sound.{IsCopyInRange, IsSoundDump};
ghost use Rattle.pm_restore.specs.Restored.{copy_in_dump};
ghost use Rattle.pm_inspect.specs.Tell.Told.{Dumps, IsTold};

/// A law of stores: the copy for which bytes stand is within the limits of a dump. Whatever is named in it is an object,
/// its names are names, and fields, bytes and names are within their limits.
pub fn a_stores_copy_is_within_a_dump()
    ensures { (bytes : List ℕ) (number : ℕ) (copy : Copy) → AreBytes bytes → StandsForCopy bytes number copy
        → IsCopyInRange copy }
{}

/// A law of dumps: what is restored of the text of a copy's dump is that copy, where it was made of a heap and is within the
/// limits of a dump; and so it is with the copy of each store, whose text is read as a dump.
pub fn a_dump_is_restored_as_its_copy()
    ensures copied { (heap : Heap) (roots : Roots) (next : ℕ) (dump : Dump) → IsCopyInRange (copied heap roots next)
        → Spells (dump_text_of (dump_of (copied heap roots next))) dump
        → copy_in_dump dump ≡ copied heap roots next }
    ensures store { (bytes : List ℕ) (number : ℕ) (copy : Copy) (dump : Dump) → AreBytes bytes
        → StandsForCopy bytes number copy → Spells (dump_text_of (dump_of copy)) dump → copy_in_dump dump ≡ copy }
    ensures read { (bytes : List ℕ) (number : ℕ) (copy : Copy) → AreBytes bytes → StandsForCopy bytes number copy
        → Spells (dump_text_of (dump_of copy)) (dump_of copy) × IsSoundDump (dump_of copy) }
{}

/// A law of stores: what `dump` tells of a store, restored and told again, is the same text.
pub fn a_restored_store_has_the_same_dump()
    ensures { (bytes image text again : List ℕ) (number : ℕ) (dump : Dump) → AreBytes bytes
        → IsTold Dumps bytes text → Spells text dump → StandsForCopy image number (copy_in_dump dump)
        → IsTold Dumps image again → again ≡ text }
{}
