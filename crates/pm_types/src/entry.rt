use crate::{Cmd, Reply};

/// One line of the journal: which client asked, what it asked, and what it was answered.
#[derive(Debug, Drop)]
pub struct Entry {
    /// The client's number, 0 to 7.
    pub client: u32,
    pub cmd: Cmd,
    pub reply: Reply,
}
