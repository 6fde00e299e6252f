//! Digests that are printed.

use crate::{Fault, push_bytes, push_words};
use pm_layout::digest;
use std::alloc::Global;

/// Adds a line: the digest of bytes.
pub fn push_digest_of(alloc: Global, bytes: &[u8], out: &mut String) -> Result<(), Fault> {
    push_words("sha256 ", out)?;
    push_bytes(alloc, &digest(bytes), out)?;
    push_words("\n", out)
}
