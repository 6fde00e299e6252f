use pm_types::EngineFault;
use thiserror::Error;

/// Why an event of a logbook was not made.
#[derive(Clone, Copy, Debug, PartialEq, Eq, Error)]
pub enum SeatFault {
    /// The engine answered this.
    #[error("{0}")]
    Engine(EngineFault),
    /// As many events were made as may be made of one logbook: the engine was not asked.
    #[error("{events} events were made")]
    Spent {
        /// The number of events that were made.
        events: u64,
    },
}
