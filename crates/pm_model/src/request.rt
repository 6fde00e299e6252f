use pm_types::Cmd;

/// A client and what it asks.
#[derive(Debug, Drop)]
pub struct Request {
    /// The client's number, 0 to 7.
    pub client: u32,
    pub cmd: Cmd,
}
