/// The number of the worker that makes the collector's events. The clients are 0 to 7.
pub const COLLECTOR: u32 = 8;

/// The number of the worker that makes the flush events.
pub const FLUSHER: u32 = 9;
