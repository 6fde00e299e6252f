//! What the collector's events and the events that write pages answer, what a watch keeps, and what is told of it.

use crate::Id;

/// What one event of the collector did.
#[derive(Clone, Copy, Debug, PartialEq, Eq)]
pub enum Step {
    /// No car stands, and nothing was done.
    Nothing,
    /// The collection of this train began.
    Selected {
        /// The train's number, from 1.
        train: u64,
    },
    /// A car's remembered set took the front change of the car's queue.
    Applied {
        /// The car's number, from 1.
        car: u64,
    },
    /// The train has no outside reference: it goes whole.
    Doomed {
        /// The train's number, from 1.
        train: u64,
    },
    /// The objects of this car begin to move.
    Started {
        /// The car's number, from 1.
        car: u64,
        /// Whether an anchor was noted.
        anchored: bool,
    },
    /// A source that named a slot whose object has moved names the object's new slot.
    Fixed {
        /// The number of the car that is collected.
        car: u64,
    },
    /// This object moved to this train.
    Moved {
        /// The object's identity.
        id: Id,
        /// The train's number, from 1.
        train: u64,
    },
    /// No object of this car moves any more.
    Finished {
        /// The car's number, from 1.
        car: u64,
    },
    /// This object went.
    Swept {
        /// The object's identity.
        id: Id,
    },
    /// This car went.
    Freed {
        /// The car's number, from 1.
        car: u64,
        /// Whether a collection ended with it.
        completed: bool,
    },
}

/// What an event that writes a page of a checkpoint did.
#[derive(Clone, Copy, Debug, PartialEq, Eq)]
pub enum Flushed {
    /// The page of this number was written.
    Wrote(u64),
    /// No copy is in progress, or each page of it was written before.
    AllFlushed,
}

/// What was noted when a watch was set: after how many collections everything is gone that nothing
/// reached then.
#[derive(Clone, Copy, Debug, Default, PartialEq, Eq)]
pub struct Watch {
    /// How many entries the journal had before the watch's own.
    pub position: u64,
    /// The number of the youngest train.
    pub youngest: u64,
    /// How many objects stand, and how many more can be born in the youngest train.
    pub objects: u64,
    /// After so many further collections no object stands that stood then and was not reached.
    pub bound: u128,
    /// How many collections were completed.
    pub completed: u64,
}

/// What is told of a watch at the end of a run. Where `done` has reached the bound, `old` is 0, and everything is gone that
/// nothing reached when the watch was set.
#[derive(Clone, Copy, Debug, Default, PartialEq, Eq)]
pub struct WatchLine {
    /// The watch's number, from 1.
    pub number: u32,
    /// After so many collections no object stands that stood when the watch was set and was not reached then.
    pub bound: u128,
    /// How many collections were completed since the watch was set.
    pub done: u64,
    /// How many objects stand in the trains that were not younger than the open one then.
    pub old: u64,
}
