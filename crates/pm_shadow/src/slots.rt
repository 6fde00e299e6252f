//! The two slots of headers, each with its gate.
ghost use Rattle.std.specs.Prelude.{◌≡◌, ◌<◌, ◌^◌, length};
ghost use Rattle.pm_image.specs.Opening.{gate_place as gate_at};
ghost use Rattle.pm_layout.specs.Headers.{HasHeaderSpelling, IsHeaderInRange, header_spelling};

use pm_layout::{Header, write_header};
use pm_types::PAGE_BYTES;

/// The gate of a slot that is open. Any other byte closes it.
pub(crate) const OPEN: u8 = 0xa5;

/// What a gate is closed with.
pub(crate) const CLOSED: u8 = 0;

/// The place of the gate of slot 0 or 1: the last byte of its page.
pub(crate) fn gate_place(slot: u64) -> u64
    requires { slot < 2 }
    ensures { result ≡ gate_at slot }
{
    PAGE_BYTES as u64 * slot + PAGE_BYTES as u64 - 1
}

// Numbers and a digest are such as their types can hold.
fn known(epoch: u32, first: u64, digest: [u8; 32])
    ensures epoch { epoch < 2 ^ 32 }
    ensures first { first < 2 ^ 64 }
    ensures digest { length digest ≡ 32 }
{}

/// The body of a header, whose numbers and digest are such as their types can hold.
pub(crate) fn body_of(header: &Header) -> [u8; 96]
    requires { HasHeaderSpelling header.now }
    ensures body { result ≡ header_spelling header.now }
    ensures range { IsHeaderInRange header.now }
{
    known(header.epoch, header.first, header.digest);
    write_header(header)
}
