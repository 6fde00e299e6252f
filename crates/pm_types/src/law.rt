//! The numbers of the limits, and the orders of what is kept in order. Each function's contract is the
//! law, and the function does nothing.

ghost use Rattle.std.specs.Prelude.{◌≡◌, ℕ, List};
ghost use Rattle.std.specs.declared.cmp.Ordering.TheVariants.{Equal};
ghost use Rattle.std.specs.Cmp.{IsTotalOrder};
ghost use Rattle.pm_types.specs.declared.address.Addr.{Addr};
ghost use Rattle.pm_types.specs.declared.source.RefSource.{RefSource};
ghost use Rattle.pm_types.specs.declared.limits.TheConstants.{CLIENTS, REGISTERS, FIELDS, OLD_FIELDS, OBJECT_BYTES, LAST_ID, END_ID, NAME_BYTES, ROOTS, WATCHES, LAST_COPY, PAGE_BYTES, SOURCE_BYTES, SCRIPT_LINES, VERSION, OLD_VERSION, LAST_SLOT, CAR_BYTES, CAR_HEAD_BYTES, CAR_ROOM, OBJECT_HEAD_BYTES, FIELD_BYTES, MOVED_BYTES, MOST_TURNS};
ghost use Rattle.pm_types.specs.Orders.{name_cmp, place_cmp, address_cmp, source_cmp};
ghost use Rattle.pm_types.specs.contracts.address.AddrOrd.TheImpl as address;
ghost use Rattle.pm_types.specs.contracts.source.RefSourceOrd.TheImpl as source;

/// A law of limits: the numbers of what clients have and make.
pub fn limits_of_clients()
    ensures clients { CLIENTS ≡ 8 }
    ensures registers { REGISTERS ≡ 1024 }
    ensures fields { FIELDS ≡ 255 }
    ensures object_bytes { OBJECT_BYTES ≡ 4096 }
    ensures last_id { LAST_ID ≡ 4294967295 }
    ensures end_id { END_ID ≡ 4294967296 }
    ensures roots { ROOTS ≡ 4096 }
    ensures name_bytes { NAME_BYTES ≡ 64 }
    ensures watches { WATCHES ≡ 64 }
{}

/// A law of limits: the numbers of what a store and a script have.
pub fn limits_of_stores()
    ensures version { VERSION ≡ 2 }
    ensures old_version { OLD_VERSION ≡ 1 }
    ensures old_fields { OLD_FIELDS ≡ 64 }
    ensures last_copy { LAST_COPY ≡ 4294967295 }
    ensures page_bytes { PAGE_BYTES ≡ 16384 }
    ensures source_bytes { SOURCE_BYTES ≡ 268435456 }
    ensures script_lines { SCRIPT_LINES ≡ 65536 }
    ensures turns { MOST_TURNS ≡ 16000 }
{}

/// A law of limits: the numbers of what a car has. Room is counted in bytes.
pub fn limits_of_cars()
    ensures last_slot { LAST_SLOT ≡ 65535 }
    ensures car { CAR_BYTES ≡ 16384 }
    ensures head { CAR_HEAD_BYTES ≡ 14 }
    ensures room { CAR_ROOM ≡ 16370 }
    ensures object_head { OBJECT_HEAD_BYTES ≡ 17 }
    ensures field { FIELD_BYTES ≡ 12 }
    ensures moved { MOVED_BYTES ≡ 17 }
{}

/// A law of names: they are ordered by their bytes, any two can be compared, and only equal ones tie.
pub fn names_are_ordered()
    ensures total { IsTotalOrder name_cmp }
    ensures ties { (a b : List ℕ) → name_cmp a b ≡ Equal → a ≡ b }
{}

/// A law of registers: their places are ordered by the client and then by the register, any two can be
/// compared, and only equal ones tie.
pub fn places_are_ordered()
    ensures total { IsTotalOrder place_cmp }
    ensures ties { (a b : ℕ × ℕ) → place_cmp a b ≡ Equal → a ≡ b }
{}

/// A law of addresses: they are ordered by the car and then by the slot, any two can be compared, and
/// only equal ones tie.
pub fn addresses_are_ordered()
    ensures order { (a b : Addr) → address.ghosts.cmp a b ≡ address_cmp a b }
    ensures total { IsTotalOrder address_cmp }
    ensures ties { (a b : Addr) → address_cmp a b ≡ Equal → a ≡ b }
{}

/// A law of sources: roots come before registers and registers before fields, and those of a kind are
/// ordered by their numbers from left to right. Any two can be compared, and only equal ones tie.
pub fn sources_are_ordered()
    ensures order { (a b : RefSource) → source.ghosts.cmp a b ≡ source_cmp a b }
    ensures total { IsTotalOrder source_cmp }
    ensures ties { (a b : RefSource) → source_cmp a b ≡ Equal → a ≡ b }
{}
