use pm_types::NoMemory;
use std::alloc::{AllocError, AllocFailed};
use std::fmt::Write;

/// Why a step of a case was not done.
#[derive(Clone, Copy)]
pub struct Fault {
    /// The reason, in a few words.
    pub reason: &'static str,
}

/// A step that was not done for this reason.
pub fn refuse(reason: &'static str) -> Fault {
    Fault { reason }
}

/// Adds a line: why a line of the input was not done.
pub fn push_refused(fault: Fault, line: &str, out: &mut String) -> Result<(), AllocError> {
    let reason = fault.reason;
    writeln!(out, "? {reason}: {line}")
}

impl From<AllocError> for Fault {
    fn from(_error: AllocError) -> Fault {
        refuse("no memory")
    }
}

impl<T: Drop> From<AllocFailed<T>> for Fault {
    fn from(_error: AllocFailed<T>) -> Fault {
        refuse("no memory")
    }
}

impl From<NoMemory> for Fault {
    fn from(_error: NoMemory) -> Fault {
        refuse("no memory")
    }
}
