use pm_types::{Addr, RefSource};

/// An event of the collector, with what it is about.
#[derive(Clone, Copy, Debug, PartialEq, Eq)]
pub enum Row {
    /// No event comes.
    Nothing,
    /// This train is selected.
    Select {
        /// The train's number, from 1.
        train: u64,
    },
    /// The front change of this car's queue is applied.
    Apply {
        /// The car's number, from 1.
        car: u64,
    },
    /// This train is doomed.
    Doom {
        /// The train's number, from 1.
        train: u64,
    },
    /// This car begins to be emptied, and where no anchor stands an object is noted.
    Start {
        /// The car's number, from 1.
        car: u64,
        /// Where the object lies that is noted.
        at: Addr,
    },
    /// A source that this car remembers stores the address to which the object went.
    Fix {
        /// The car's number, from 1.
        car: u64,
        /// The source.
        source: RefSource,
        /// The address to which the object went.
        to: Addr,
    },
    /// The anchor moves to its train.
    MoveAnchor {
        /// Where the anchor lies.
        at: Addr,
        /// The number of its train, from 1.
        train: u64,
    },
    /// An object that a source outside its train names moves to a train that is picked.
    MoveOut {
        /// Where the object lies.
        at: Addr,
    },
    /// An object moves to the end of its own train.
    MoveOn {
        /// Where the object lies.
        at: Addr,
        /// The train's number, from 1.
        train: u64,
    },
    /// This car is swept from now on.
    Finish {
        /// The car's number, from 1.
        car: u64,
    },
    /// An object is swept.
    Sweep {
        /// Where the object lies.
        at: Addr,
    },
    /// This car, which was swept, goes.
    Free {
        /// The car's number, from 1.
        car: u64,
    },
    /// This car of a train that is doomed goes.
    FreeDoomed {
        /// The train's number, from 1.
        train: u64,
        /// The car's number, from 1.
        car: u64,
    },
}
