ghost use base.Stored.{Gv, gnil};
ghost use Rattle.pm_passes.specs.Codes.{coded_code};

use std::collections::LinkedList;
use std::marker::Model;

/// The code of a tie, by which a pass remembers what its type does not name. No value of it is made.
pub struct Origin;

impl Model for Origin {
    ghost Value = { Gv };

    ghost coded = { coded_code };

    ghost view = { λ _. gnil };
}

/// What is counted of a value.
pub struct Numbers {
    /// The events of the collector that were made.
    pub made: u64,
    /// The flush events that were made.
    pub flushed: u64,
    /// The calls that were answered with a fault of the disk.
    pub struck: u64,
    /// The faults of the disk.
    pub faults: u64,
    /// The events of all kinds.
    pub events: u64,
}

/// What a pass knows. No value of it is made.
pub struct View<E> {
    /// It was not met into another.
    pub speaks: bool,
    /// It has the value now.
    pub holds: bool,
    /// The number of its caller, which no other pass has.
    pub number: u64,
    /// What it has seen of the log: a beginning. Each entry has the number of the pass that made it.
    pub front: LinkedList<(u64, E)>,
    /// The front of a pass that was just met into it, until the length of the log is loaded.
    pub also: LinkedList<(u64, E)>,
    /// Its own entries, in order.
    pub mine: LinkedList<E>,
    /// The passes that were met into it, and into those: the number of each, with its own entries.
    pub ended: LinkedList<(u64, LinkedList<E>)>,
    /// Its part of the 4,294,967,296 shares.
    pub shares: u64,
    /// What it has counted: so many events of the collector.
    pub made: u64,
    /// So many flush events.
    pub flushed: u64,
    /// So many calls that were answered with a fault of the disk.
    pub struck: u64,
    /// It was told of so many faults of the disk.
    pub faults: u64,
    /// It was told of so many events.
    pub events: u64,
    /// The whole log, while it has the value. As `next` and `was` it stays as it was when the value is put back.
    pub all: LinkedList<(u64, E)>,
    /// The number of the next pass, while it has the value.
    pub next: u64,
    /// What was counted of the value as it was taken out.
    pub was: Numbers,
    /// The code of the value's tie.
    pub origin: Origin,
}
