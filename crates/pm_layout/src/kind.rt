//! The byte that the spelling of a slot begins with.

/// The slot of an object.
pub const LIVE: u8 = 1;

/// The slot of an object that went to another address.
pub const MOVED: u8 = 2;
