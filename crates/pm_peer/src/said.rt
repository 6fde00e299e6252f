use pm_types::Bytes;

/// One part of a conversation.
#[derive(Debug, Drop)]
pub enum Said {
    /// Bytes that came of the peer in one call.
    Heard(Bytes),
    /// Bytes that were told to it in one call.
    Told(Bytes),
}
