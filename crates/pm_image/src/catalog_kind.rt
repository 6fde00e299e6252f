// The fixed bytes of a catalog page.

/// The four bytes that it begins with, `PCAT`.
pub(crate) const CATALOG_MAGIC: [u8; 4] = [0x50, 0x43, 0x41, 0x54];

/// Where the number of the next page stands.
pub(crate) const NEXT: usize = 4;

/// Where the digest of the next page stands.
pub(crate) const NEXT_DIGEST: usize = 12;

/// Where the number of entries stands.
pub(crate) const COUNT: usize = 44;

/// Where the entries of a catalog page begin.
pub const ENTRIES: usize = 46;

/// The byte that the entry of a car begins with.
pub(crate) const CAR: u8 = 1;

/// How many bytes the entry of a car has.
pub const CAR_ENTRY_BYTES: usize = 57;

/// The byte that the entry of a root begins with.
pub(crate) const ROOT: u8 = 2;

/// How many bytes the entry of a root has beside its name.
pub const ROOT_ENTRY_BYTES: usize = 14;

/// How many bytes an address has.
pub(crate) const ADDRESS_BYTES: usize = 12;
