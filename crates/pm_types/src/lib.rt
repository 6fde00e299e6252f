//! The values that every layer of the store speaks of, and the limits that they keep.
#![tactic(auto)]

mod address;
mod bytes;
mod caused;
mod command;
mod entry;
mod event;
mod fault;
mod items;
mod law;
mod limits;
mod name;
mod near;
mod no_memory;
mod numbered;
mod object;
mod register;
mod reply;
mod size;
mod source;

pub use address::Addr;
pub use bytes::Bytes;
pub use caused::Fault;
pub use command::Cmd;
pub use entry::Entry;
pub use event::{Flushed, Step, Watch, WatchLine};
pub use fault::{EngineFault, InitFault, OpenFault};
pub use items::Items;
pub use law::{
    addresses_are_ordered, limits_of_cars, limits_of_clients, limits_of_stores, names_are_ordered,
    places_are_ordered, sources_are_ordered,
};
pub use limits::{
    CAR_BYTES, CAR_HEAD_BYTES, CAR_ROOM, CLIENTS, END_ID, FIELD_BYTES, FIELDS, LAST_COPY, LAST_ID,
    LAST_SLOT, MOST_TURNS, MOVED_BYTES, NAME_BYTES, OBJECT_BYTES, OBJECT_HEAD_BYTES, OLD_FIELDS,
    OLD_VERSION, PAGE_BYTES, REGISTERS, ROOTS, SCRIPT_LINES, SOURCE_BYTES, VERSION, WATCHES,
};
pub use name::{Name, NameFault};
pub use no_memory::{MOST_COUNTED, NoMemory};
pub use numbered::Numbered;
pub use object::{Fields, Object, Slot};
pub use register::Reg;
pub use reply::Reply;
pub use size::room;
pub use source::{Change, RefSource};

/// The identity of an object: 1 to 4,294,967,295, given in order of creation and never given again.
pub type Id = u32;
