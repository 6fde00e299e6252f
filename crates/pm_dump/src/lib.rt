//! Dumps: a copy as lines of text that depend on nothing but the copy. What a dump is stands in `specs/Dump.antt`,
//! which bytes spell one in `specs/Spelled.antt`, and why bytes are none in `specs/Faults.antt`.
#![tactic(auto)]

mod dangling;
mod dump;
mod fault;
mod laws;
mod lent;
mod line;
mod parts;
mod read;
mod words;

pub use dump::{Dump, read_dump};
pub use fault::{DumpCause, DumpFault};
pub use laws::{
    a_dump_has_one_reading, a_dump_is_spelled_or_has_one_fault, a_dumps_copy,
    dumps_of_copies_are_read_again,
};
pub use lent::DumpObject;
pub use parts::DumpRoot;
