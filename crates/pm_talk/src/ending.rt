/// Why a conversation broke off.
#[derive(Clone, Copy, Debug, PartialEq, Eq)]
pub enum Ending {
    /// The peer failed while it was heard.
    Hearing,
    /// The peer failed while it was told.
    Telling,
    /// The disk failed.
    Device,
}
