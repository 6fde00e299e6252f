//! The bytes of slots and headers: what has a spelling, how it is written, and how it is read.
#![tactic(auto)]

mod fault;
mod hash;
mod header;
mod kind;
mod law;
mod number;
mod reading;
mod writing;

pub use fault::LayoutFault;
pub use hash::digest;
pub use header::{Header, HeaderFault, most_fields, read_header, write_header};
pub use kind::{LIVE, MOVED};
pub use law::{headers_are_read_again, limits_may_grow, slots_are_read_again};
pub use number::{digest_at, put_bytes, put_u8, put_u16, put_u64, u16_at, u32_at, u64_at};
pub use reading::{address_at, read_slot};
pub use writing::{fill_slot, put_address, size, write_slot};
