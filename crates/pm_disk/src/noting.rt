//! Calls noted in a list, and the counts that follow.
ghost use Rattle.std.specs.Prelude.{◌≡◌, ◌+◌, ◌^◌, ◌<◌, ◌++◌, [], ◌∷◌, not, ◌||◌, length, IfOk, OnErr};
ghost use Rattle.pm_disk.specs.Disk.{IsCounted};
ghost use Rattle.pm_disk.specs.Replay.{is_listed};
ghost use Rattle.pm_disk.specs.Sound.{shown};
ghost use Rattle.pm_disk.specs.Outcomes.{EndsAs, IsGrown, IsWritten};

use crate::overwrite::change;
use crate::{DiskCall, DiskFailed};
use pm_types::Bytes;
use std::alloc::AllocError;

/// Raises a count by one; at its end it stays.
pub(crate) fn raise(count: &mut u64)
    ensures { IsCounted count.old count.new }
{
    *count = count.saturating_add(1);
}

/// The next call is not one of those that are to fail.
fn is_fine(fails: &[u64], calls: &[DiskCall]) -> bool
    ensures { result ≡ not (is_listed fails.now (length calls.now + 1)) }
{
    !fails.contains(&(calls.len() as u64 + 1))
}

/// Notes a call, and answers whether it is to succeed: `past` says that it fails in any case.
pub(crate) fn note(
    fails: &[u64],
    past: bool,
    calls: &mut Vec<DiskCall>,
    call: DiskCall,
) -> Result<bool, AllocError>
    ensures fine { IfOk result (λ fine. fine ≡ not (is_listed fails.now (length calls.old.items + 1) || past)) }
    ensures noted { IfOk result (λ _. calls.new.items ≡ calls.old.items ++ call ∷ []) }
    ensures err { OnErr result (calls.new.items ≡ calls.old.items) }
    ensures grown { IsGrown call calls.old.items calls.new.items }
{
    let fine = is_fine(fails, calls) && !past;
    calls.push(call)?;
    Ok(fine)
}

/// Notes a write, which is made where it is not to fail. All memory is taken before anything changes.
pub(crate) fn note_write(
    start: &[u8],
    changed: &mut Option<Vec<u8>>,
    fails: &[u64],
    calls: &mut Vec<DiskCall>,
    at: u64,
    from: &[u8],
) -> Result<bool, AllocError>
    requires { at + length from.now < 2 ^ 63 }
    ensures fine { IfOk result (λ fine. fine ≡ not (is_listed fails.now (length calls.old.items + 1))) }
    ensures noted { IfOk result (λ _. calls.new.items ≡ calls.old.items ++ DiskCall.Write at from.now ∷ []) }
    ensures err { OnErr result (calls.new.items ≡ calls.old.items) }
    ensures made { IsWritten (is_listed fails.now (length calls.old.items + 1)) at from.now
        calls.old.items calls.new.items (shown start.now changed.old) (shown start.now changed.new) }
{
    let alloc = *calls.allocator();
    let bytes = Bytes::from_vec(from.to_vec(alloc)?);
    calls.reserve(1)?;
    let fine = is_fine(fails, calls);
    if fine {
        change(alloc, start, changed, at, from)?;
    }
    calls.push(DiskCall::Write { at, bytes }).unwrap();
    Ok(fine)
}

/// How a call ends: Ok where it was made, and a failure where it was to fail or was refused memory.
pub(crate) fn settle(
    outcome: Result<bool, AllocError>,
    faults: &mut u64,
    refused: &mut u64,
) -> Result<(), DiskFailed>
    ensures { EndsAs outcome faults.old faults.new refused.old refused.new result }
{
    if let Ok(true) = outcome {
        return Ok(());
    }
    raise(faults);
    if outcome.is_err() {
        raise(refused);
    }
    Err(DiskFailed)
}
