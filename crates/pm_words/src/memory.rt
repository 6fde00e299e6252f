//! What `clap` answers where memory ran out.
ghost use Rattle.std.specs.Prelude.{◌≡◌, ◌≢◌, OnSome, IfNone};
ghost use Rattle.clap.specs.Words.{kind_of};

use clap::Error;
use clap::error::ErrorKind;
use pm_types::NoMemory;
use std::alloc::AllocError;

/// The evidence that memory ran out, where that is why `clap` takes the words as no command; else `None`.
pub(crate) fn out_of_memory(error: Error) -> Option<NoMemory>
    ensures some { OnSome result (kind_of error ≡ ErrorKind.OutOfMemory) }
    ensures none { IfNone result (kind_of error ≢ ErrorKind.OutOfMemory) }
{
    match error.kind() {
        ErrorKind::OutOfMemory => Some(NoMemory::from(AllocError)),
        _ => None,
    }
}
