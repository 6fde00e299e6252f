ghost use Rattle.std.specs.Prelude.{◌≡◌, is_err, IsErr, OnOk, OnErr, MatchResult};
ghost use Rattle.pm_types.specs.Counts.{Rose};
ghost use Rattle.pm_types.specs.Counts.{raised};
ghost use Rattle.pm_io.specs.Calls.{is_listed};

use crate::Failed;
use std::io;

// Counts a fault. The count stays at its end.
pub(crate) fn raise(count: &mut u64)
    ensures raised { count.new ≡ raised count.old }
    ensures rose { Rose count.old count.new }
{
    *count = count.saturating_add(1);
}

// Counts a call, and says whether it is one that fails.
fn count_call(calls: &mut u64, fails: &[u64]) -> bool
    ensures counted { calls.new ≡ raised calls.old }
    ensures listed { result ≡ is_listed fails.now calls.old }
{
    if *calls == u64::MAX {
        return false;
    }
    *calls += 1;
    fails.contains(calls)
}

// Begins a call of a stream in memory. It fails where its number is listed, and counts that.
pub(crate) fn begin(calls: &mut u64, fails: &[u64], faults: &mut u64) -> Result<(), Failed>
    ensures listed { is_err result ≡ is_listed fails.now calls.old }
    ensures counted { calls.new ≡ raised calls.old }
    ensures ok { OnOk result (faults.new ≡ faults.old) }
    ensures err { OnErr result (faults.new ≡ raised faults.old) }
    ensures cause { OnErr result (Rose faults.old faults.new) }
{
    if count_call(calls, fails) {
        raise(faults);
        return Err(Failed);
    }
    Ok(())
}

// Counts an outcome that is a failure.
pub(crate) fn count<T: Drop>(outcome: io::Result<T>, faults: &mut u64) -> Result<T, Failed>
    ensures same { MatchResult outcome (λ answer. result ≡ Ok answer) (λ _. IsErr result) }
    ensures ok { OnOk result (faults.new ≡ faults.old) }
    ensures err { OnErr result (Rose faults.old faults.new) }
{
    match outcome {
        Ok(answer) => Ok(answer),
        Err(_) => {
            raise(faults);
            Err(Failed)
        }
    }
}
