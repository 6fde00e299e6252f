ghost use Rattle.std.specs.Prelude.{◌≡◌, is_err, OnOk, OnErr};
ghost use Rattle.pm_types.specs.Counts.{Rose, raised};
ghost use Rattle.pm_io.specs.Calls.{is_listed};

use pm_io::Failed;

/// Counts a fault. The count stays at its end.
pub(crate) fn raise(count: &mut u64)
    ensures raised { count.new ≡ raised count.old }
    ensures rose { Rose count.old count.new }
{
    *count = count.saturating_add(1);
}

// Counts a call, and says whether it is one that fails.
fn count_call(calls: &mut u64, fails: &[u64]) -> bool
    ensures counted { calls.new ≡ raised calls.old }
    ensures listed { result ≡ is_listed fails.now calls.old }
{
    if *calls == u64::MAX {
        return false;
    }
    *calls += 1;
    fails.contains(calls)
}

/// Begins a call of the peer in memory. It fails where its number is listed, and counts that.
pub(crate) fn begin(calls: &mut u64, fails: &[u64], faults: &mut u64) -> Result<(), Failed>
    ensures listed { is_err result ≡ is_listed fails.now calls.old }
    ensures counted { calls.new ≡ raised calls.old }
    ensures ok { OnOk result (faults.new ≡ faults.old) }
    ensures err { OnErr result (faults.new ≡ raised faults.old) }
    ensures cause { OnErr result (Rose faults.old faults.new) }
{
    if count_call(calls, fails) {
        raise(faults);
        return Err(Failed);
    }
    Ok(())
}
