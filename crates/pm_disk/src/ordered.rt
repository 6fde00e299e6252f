ghost use Rattle.std.specs.Prelude.{◌≡◌, ◌+◌, ◌-◌, ◌^◌, ◌≤◌, Some, length, OnOk};
ghost use Rattle.pm_disk.specs.Writes.{written};
ghost use Rattle.pm_disk.specs.Disk.{IfTold, LeavesOnly, HasCause};
ghost use Rattle.pm_disk.specs.Ordered.{IsInOrder};

use crate::{Disk, DiskFailed};

/// Two writes, the second of which a crash leaves no part of unless it leaves the first whole.
/// The second may still be lost: a sync has to follow.
pub fn write_in_order<D: Disk>(
    disk: &mut D,
    first_at: u64,
    first: &[u8],
    second_at: u64,
    second: &[u8],
) -> Result<(), DiskFailed>
    requires first { first_at + length first.now ≤ 2 ^ 63 - 1 }
    requires second { second_at + length second.now ≤ 2 ^ 63 - 1 }

    // A crash at any moment since the start, within a call or between two.
    ensures in_order { IfTold (D.contents disk.old) (λ contents. LeavesOnly D.moment D.since disk.old disk.new
        (IsInOrder (D.image disk.old) contents first_at first.now second_at (length second.now))) }
    ensures written { OnOk result (IfTold (D.contents disk.old) (λ contents.
        D.contents disk.new ≡ Some (written second_at second.now (written first_at first.now contents)))) }
    ensures cause { HasCause (D.count disk.old) (D.count disk.new) result }
{
    disk.write_at(first_at, first)?;
    disk.sync()?;
    disk.write_at(second_at, second)
}
