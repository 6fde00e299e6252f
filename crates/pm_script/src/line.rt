use pm_types::Cmd;

/// What one line of a script asks.
#[derive(Debug, Drop)]
pub enum Line {
    /// A client asks a command.
    Client {
        /// The client's number, 0 to 7.
        client: u32,
        cmd: Cmd,
    },
    /// So many events of the collector.
    Gc(u32),
    /// So many events that write a page of a checkpoint.
    Flush(u32),
}

/// What one line of a script for a run with a nursery asks.
#[derive(Debug, Drop)]
pub enum YoungLine {
    /// What a line of any script asks. It is no `watch`.
    Base(Line),
    /// A sweep of the nursery.
    Young,
}
