ghost use Rattle.std.specs.Prelude.{◌≡◌, ℕ, ◌+◌, ◌^◌, ◌<◌, ◌≤◌, List, ◌++◌, length, take, Ok, Err};
ghost use Rattle.pm_types.specs.declared.object.Slot.{Slot};
ghost use Rattle.pm_layout.specs.declared.header.Header.{Header};
ghost use Rattle.pm_layout.specs.declared.fault.LayoutFault.TheVariants.{Short};
ghost use Rattle.pm_layout.specs.Spelling.{HasSpelling, IsInRange, spelling, slot_size};
ghost use Rattle.pm_layout.specs.Reading.{slot_at};
ghost use Rattle.pm_layout.specs.Headers.{HasHeaderSpelling, IsHeaderInRange, header_spelling, header_at};

/// The laws of the spelling of slots, at any limit on their fields that two bytes can count.
pub fn slots_are_read_again()
    // What is written is read again, whatever stands before it and follows it.
    ensures again { (most : ℕ) (before rest : List ℕ) (slot : Slot) → most < 2 ^ 16 → HasSpelling most slot
        → IsInRange slot → slot_at most (before ++ (spelling slot ++ rest)) (length before) ≡ Ok
        (slot, length before + slot_size slot) }
    // No spelling is the front of another's: where two stand at one place, they are one, and so is what follows.
    ensures apart { (most : ℕ) (a b : Slot) (x y : List ℕ) → most < 2 ^ 16 → HasSpelling most a → IsInRange a
        → HasSpelling most b → IsInRange b → spelling a ++ x ≡ spelling b ++ y → (a ≡ b) × (x ≡ y) }
    // A spelling that is cut anywhere is short, at the place where it begins.
    ensures cut { (most len : ℕ) (before : List ℕ) (slot : Slot) → most < 2 ^ 16 → HasSpelling most slot
        → len < slot_size slot → slot_at most (before ++ take len (spelling slot)) (length before) ≡ Err
        (Short (length before)) }
{}

/// A slot that is read within one limit on the fields is read alike within a greater one.
pub fn limits_may_grow()
    ensures { (most more : ℕ) (bytes : List ℕ) (at next : ℕ) (slot : Slot) → most ≤ more
        → slot_at most bytes at ≡ Ok (slot, next) → slot_at more bytes at ≡ Ok (slot, next) }
{}

/// What is written of a header is read again.
pub fn headers_are_read_again()
    ensures { (header : Header) → HasHeaderSpelling header → IsHeaderInRange header
        → header_at (header_spelling header) ≡ Ok header }
{}
