//! What std answers where memory ran out for the words of the command line.
ghost use Rattle.std.specs.Prelude.{◌≡◌, ◌≢◌, OnSome, IfNone};
ghost use Rattle.std.specs.IoError.{error_kind};

use pm_types::NoMemory;
use std::alloc::AllocError;
use std::io::{Error, ErrorKind};

/// The evidence that memory ran out, where that is why there are no words; else `None`.
pub(crate) fn out_of_memory(error: Error) -> Option<NoMemory>
    ensures some { OnSome result (error_kind error ≡ ErrorKind.OutOfMemory) }
    ensures none { IfNone result (error_kind error ≢ ErrorKind.OutOfMemory) }
{
    match error.kind() {
        ErrorKind::OutOfMemory => Some(NoMemory::from(AllocError)),
        _ => None,
    }
}
