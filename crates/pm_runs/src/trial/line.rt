//! The line of a digest, as bytes that take no memory.

ghost use Rattle.std.specs.Prelude.{◌≡◌};
ghost use Rattle.pm_runs.specs.Trial.Trials.{shown_digest};

use pm_serial::output::line::{Line, append, append_digest, line_with};

/// The line of a digest: 7 bytes of words, 64 digits and a newline.
pub(crate) fn digest_line(digest: &[u8; 32]) -> Line
    ensures { result.items ≡ shown_digest digest.now }
{
    let mut line = line_with(b"digest ");
    append_digest(&mut line, digest);
    append(&mut line, b"\n");
    line
}
