//! What packings are. Each function's contract is a law, and the function does nothing.

ghost use Rattle.std.specs.Prelude.{◌≡◌, ℕ, ◌<◌, List, [], Some, length, option_map, slice_get};
ghost use Rattle.std.specs.FinMap.{find};
ghost use Rattle.std.specs.Ordering.{nat_cmp};
ghost use Rattle.pm_model.specs.Heap.{Object};
ghost use Rattle.pm_model.specs.Copying.{copied};
ghost use Rattle.pm_image.specs.Graphs.{resolved, slot_named};
ghost use Rattle.pm_copies.specs.Accepted.{IsAccepted};
ghost use Rattle.pm_copies.specs.Listed.{copy_listed};
ghost use Rattle.pm_copies.specs.Filling.{IsFilledInto, joined_parts};
ghost use Rattle.pm_dump.specs.Dump.{Dump, copy_of_dump};
ghost use Rattle.pm_dump.specs.Sound.{IsSoundDump};
ghost use Rattle.pm_restore.specs.Packing.Packing.{DumpEntry, address_of, car_room, filled, object_room, packed_cars};
ghost use Rattle.pm_restore.specs.Packing.Packing.{packed_list, packed_roots, packed_slot, place_of};

/// A law of packings: the objects of a dump go into cars in their order, each car filled before the next is begun, and
/// in no other way.
pub fn objects_are_filled_in_one_way()
    ensures whole { (objects : List DumpEntry) → joined_parts (filled objects) ≡ objects }
    ensures some { (dump : Dump) → IsSoundDump dump → 0 < length dump.objects
        → IsFilledInto car_room object_room dump.objects (filled dump.objects) }
    ensures one { (objects : List DumpEntry) (parts : List (List DumpEntry)) → 0 < length objects
        → IsFilledInto car_room object_room objects parts → parts ≡ filled objects }
    // No objects need no car.
    ensures none { filled [] ≡ [] }
{}

/// A law of packings: at the address of a place of the list stands the object of that place, and nothing where there
/// is no such place; so the address of an identity that is listed leads to it.
pub fn addresses_lead_to_packed_objects()
    ensures slots { (dump : Dump) (place : ℕ) → slot_named (packed_cars dump) (place_of dump.objects place)
        ≡ option_map (packed_slot (address_of dump.objects)) (slice_get dump.objects place) }
    ensures resolved { (dump : Dump) (id : ℕ) (object : Object) → find nat_cmp id dump.objects ≡ Some object
        → resolved (packed_cars dump) (address_of dump.objects id) ≡ Some id }
{}

/// A law of packings: no rule of opening refuses the cars and the roots of a sound dump, all cars being in train 1.
pub fn a_packed_dump_is_accepted()
    ensures { (dump : Dump) → IsSoundDump dump → IsAccepted (packed_list dump) (packed_roots dump) dump.next }
{}

/// A law of packings: the copy that the cars and the roots of a sound dump are is the dump's: its roots, and the
/// objects that they reach.
pub fn a_packed_dump_is_its_copy()
    ensures { (dump : Dump) → IsSoundDump dump → copy_listed (packed_list dump) (packed_roots dump) dump.next
        ≡ copied (copy_of_dump dump).heap (copy_of_dump dump).roots dump.next }
{}
