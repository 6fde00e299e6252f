use crate::Addr;

/// A place that stores an address. Sources are ordered as they stand here, roots before registers before
/// fields, and among their kind by their numbers from left to right.
#[derive(Clone, Copy, Debug, PartialEq, Eq, PartialOrd, Ord)]
pub enum RefSource {
    /// The root of this number.
    Root(u64),
    /// A register of a client.
    Handle {
        /// The client's number, 0 to 7.
        client: u32,
        /// The register's number, 0 to 1023.
        register: u32,
    },
    /// A field of the object that lies at an address.
    Field {
        /// Where the object lies.
        at: Addr,
        /// The number of the field, from 0.
        index: u32,
    },
}

/// A change of a car's remembered set that waits in the car's queue.
#[derive(Clone, Copy, Debug, PartialEq, Eq)]
pub struct Change {
    /// The place whose stored address changed.
    pub source: RefSource,
    /// The slot of the car that the source names from now on, or `None` where it names none.
    pub slot: Option<u32>,
}
