//! The buffers of a conversation.

ghost use Rattle.std.specs.Prelude.{◌≡◌, length};
ghost use Rattle.pm_script.specs.declared.reply.TheConstants.{REPLY_BYTES};

use pm_peer::Lines;

/// The buffers of a conversation: of what is heard, and of a reply line. Their memory is taken when they are made, so
/// that none of it is missing once a store is open.
#[derive(Drop)]
pub struct Buffers {
    pub(crate) lines: Lines,
    pub(crate) reply: Vec<u8>,
    ghost full: { length reply.items ≡ REPLY_BYTES },
}
