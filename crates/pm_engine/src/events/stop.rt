//! Why a run stops.

ghost use Rattle.std.specs.Prelude.{◌≡◌};
ghost use Rattle.pm_engine.specs.Events.Causes.{stop_after, stop_of, why};

use pm_types::{EngineFault, NoMemory};

/// Why a run stopped before its end.
#[derive(Clone, Copy, Debug, PartialEq, Eq)]
pub enum Stop {
    /// Memory ran out.
    Memory(NoMemory),
    /// The sink failed.
    Writing,
    /// The disk failed.
    Device,
}

// Why a run stops after this fault. An engine that is stopped already is asked for no event.
fn stop_of(fault: EngineFault) -> Stop
    ensures { result ≡ stop_of fault }
{
    match fault {
        EngineFault::Memory(refused) => Stop::Memory(refused),
        EngineFault::Disk { .. } | EngineFault::Reopen { .. } => Stop::Device,
    }
}

/// Whether a run goes on after this answer of the engine, and else why it stops.
///
/// # Errors
///
/// `Memory` where memory ran out, and `Device` where the disk failed.
pub fn stop_after<T: Drop>(answer: Result<T, EngineFault>) -> Result<(), Stop>
    ensures { why result ≡ stop_after answer }
{
    match answer {
        Ok(_) => Ok(()),
        Err(fault) => Err(stop_of(fault)),
    }
}
