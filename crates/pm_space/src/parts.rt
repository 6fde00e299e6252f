use crate::held::Held;
use crate::links::LinkTable;
use pm_guard::Guard;
use pm_handles::Handles;
use pm_place::Placement;
use pm_roots::Roots;
use pm_snap::Table;
use pm_trains::Trains;
use pm_view::Phase;

/// What a space is made of.
#[derive(Drop)]
pub struct Parts<F> {
    /// The cars by their numbers, from 1.
    pub cars: Table<Held>,
    /// The remembered set and the queue of each car that stands, and of no other.
    pub links: LinkTable,
    /// The trains, and in which each car is.
    pub trains: Trains,
    /// The named roots.
    pub roots: Roots,
    /// The registers of the clients.
    pub handles: Handles,
    /// The chooser of trains.
    pub place: Placement<F>,
    /// The anchor.
    pub guard: Guard,
    /// What the collector is at.
    pub phase: Phase,
    /// The identity of the next object, from 1; 4,294,967,296 where none is left.
    pub next: u64,
    /// How many collections were completed.
    pub completed: u64,
}
