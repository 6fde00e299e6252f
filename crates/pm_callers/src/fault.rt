//! Which fault is told, where several workers met one.

ghost use Rattle.std.specs.Prelude.{◌≡◌};
ghost use Rattle.pm_callers.specs.Faults.{weight, worse_of};

use pm_seats::SeatFault;
use pm_types::EngineFault;

// How much a fault weighs.
fn weight(fault: &Option<SeatFault>) -> u32
    ensures { result ≡ weight fault.now }
{
    match fault {
        None => 0,
        Some(SeatFault::Spent { .. }) => 1,
        Some(SeatFault::Engine(EngineFault::Memory(_))) => 2,
        Some(SeatFault::Engine(EngineFault::Reopen { .. })) => 3,
        Some(SeatFault::Engine(EngineFault::Disk { .. })) => 4,
    }
}

/// The worse one of what two workers met: a Disk, if either met one; else a Reopen; else a Memory. Of two of a kind it is
/// that of the first one.
pub fn worse(first: Option<SeatFault>, second: Option<SeatFault>) -> Option<SeatFault>
    ensures { result ≡ worse_of first second }
{
    if weight(&first) < weight(&second) {
        second
    } else {
        first
    }
}
