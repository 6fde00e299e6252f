//! How the buffers of a conversation are made.

ghost use Rattle.std.specs.Prelude.{◌≡◌, [], IfOk};
ghost use Rattle.pm_talk.specs.Talks.{kept_in};

use crate::Buffers;
use pm_peer::Lines;
use pm_script::REPLY_BYTES;
use pm_types::NoMemory;
use std::alloc::Global;

impl Buffers {
    /// Buffers for a conversation in which nothing was heard yet: 65,536 bytes of what is heard, and 8,195 of a reply
    /// line.
    pub fn new(alloc: Global) -> Result<Buffers, NoMemory>
        ensures { IfOk result (λ buffers. kept_in buffers ≡ []) }
    {
        let lines = Lines::new(alloc)?;
        let mut reply = Vec::new(alloc);
        reply.resize(REPLY_BYTES, 0)?;
        Ok(Buffers { lines, reply })
    }
}
