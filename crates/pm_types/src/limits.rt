/// How many clients there are. Their numbers run from 0.
pub const CLIENTS: u32 = 8;

/// How many registers each client has. Their numbers run from 0.
pub const REGISTERS: u32 = 1024;

/// The most reference fields of an object.
pub const FIELDS: u32 = 255;

/// The most reference fields of an object in a store of the old version.
pub const OLD_FIELDS: u32 = 64;

/// The version of the format that is written.
pub const VERSION: u32 = 2;

/// The version of the format that came before it, which is still read.
pub const OLD_VERSION: u32 = 1;

/// The most bytes of an object.
pub const OBJECT_BYTES: usize = 4096;

/// The last identity: once it was given, no further object can be made.
pub const LAST_ID: u32 = 4_294_967_295;

/// One past the last identity: the greatest value that the next identity has, once the last one was given.
pub const END_ID: u64 = LAST_ID as u64 + 1;

/// The most names that are bound at one time.
pub const ROOTS: usize = 4096;

/// The most bytes of a name. It has at least one.
pub const NAME_BYTES: usize = 64;

/// The last number of a copy: once it settled, no further copy can be begun.
pub const LAST_COPY: u32 = 4_294_967_295;

/// The greatest number of a slot of a car.
pub const LAST_SLOT: u32 = 65_535;

/// The room that the head of a car takes, in bytes: on its page the first slot begins behind it.
pub const CAR_HEAD_BYTES: u32 = 14;

/// The room that the head of an object takes in its car, in bytes.
pub const OBJECT_HEAD_BYTES: u32 = 17;

/// The room that each field of an object takes, in bytes.
pub const FIELD_BYTES: u32 = 12;

/// The room that a slot takes from which the object moved away, in bytes.
pub const MOVED_BYTES: u32 = 17;

/// How many bytes a page of a store has. Page p begins at byte `PAGE_BYTES * p`.
pub const PAGE_BYTES: usize = 16_384;

/// The room of a car, in bytes: that of a page.
pub const CAR_BYTES: u32 = PAGE_BYTES as u32;

/// The room for objects that a car has, in bytes.
pub const CAR_ROOM: u32 = CAR_BYTES - CAR_HEAD_BYTES;

/// The most bytes of a script.
pub const SOURCE_BYTES: usize = 268_435_456;

/// The most lines of a script.
pub const SCRIPT_LINES: usize = 65_536;

/// The most watches that are set in one run.
pub const WATCHES: u32 = 64;

/// The most turns of a script that is made from a seed.
pub const MOST_TURNS: u32 = 16_000;
