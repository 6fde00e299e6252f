//! Bytes read out of others.
ghost use Rattle.std.specs.Prelude.{◌≡◌, ◌+◌, ◌≤◌, length, take, drop};
ghost use Rattle.pm_disk.specs.Made.{read_kind};
ghost use Rattle.pm_disk.specs.Reads.{reads_past};

use crate::CallKind;

/// A read of so many bytes as `into` has from place `at` on reaches past the end.
pub(crate) fn is_past(bytes: &[u8], at: u64, into: &[u8]) -> bool
    ensures { result ≡ reads_past at (length into.now) bytes.now }
{
    let len = bytes.len() as u64;
    at > len || into.len() as u64 > len - at
}

/// What kind of call a read is that reaches past the end, or does not.
pub(crate) fn kind_of(past: bool) -> CallKind
    ensures { result ≡ read_kind past }
{
    if past {
        CallKind::ReadPastEnd
    } else {
        CallKind::Look
    }
}

/// Fills `into` with the bytes from place `at` on.
pub(crate) fn copy_out(bytes: &[u8], at: usize, into: &mut [u8])
    requires { at + length into.old ≤ length bytes.now }
    ensures { into.new ≡ take (length into.old) (drop at bytes.now) }
{
    into.copy_from_slice(&bytes[at..at + into.len()]);
}
