//! Runs of a few calls of a disk.
ghost use Rattle.std.specs.Prelude.{◌≡◌, ◌+◌, ◌-◌, ◌^◌, ◌≤◌, ℕ, List, length, option_map, OnOk, OnErr};
ghost use Rattle.pm_disk.specs.Writes.{written, TornIfTold};
ghost use Rattle.pm_disk.specs.Disk.{IfTold, OnlyTorn, LeavesOnly, HasCause};
ghost use Rattle.pm_disk.specs.Made.{MakesCalls};
ghost use Rattle.pm_disk.specs.Ordered.{IsInOrder};
ghost use Rattle.pm_shadow.specs.Runs.{IsCut};

use pm_disk::{Disk, DiskFailed};

/// One write, and a sync behind it.
pub(crate) fn write_and_sync<D: Disk>(disk: &mut D, at: u64, bytes: &[u8]) -> Result<(), DiskFailed>
    requires { at + length bytes.now ≤ 2 ^ 63 - 1 }
    ensures written { OnOk result (D.contents disk.new ≡ option_map (written at bytes.now) (D.contents disk.old)) }
    ensures only { OnOk result (IfTold (D.contents disk.new) (λ told. (left : List ℕ) → D.image disk.new left
        → left ≡ told)) }
    ensures torn { OnErr result (TornIfTold at (length bytes.now) (D.contents disk.old) (D.contents disk.new)) }
    ensures images { OnlyTorn at (length bytes.now) (D.image disk.old) (D.image disk.new) }
    ensures leaves { LeavesOnly D.moment D.since disk.old disk.new (IsCut at (length bytes.now) (D.image disk.old)) }
    ensures cause { HasCause (D.count disk.old) (D.count disk.new) result }
    ensures made { MakesCalls 1 1 (D.made disk.old) (D.made disk.new) result }
{
    disk.write_at(at, bytes)?;
    disk.sync()
}

/// Two writes with a sync behind each, the second further on. A crash leaves no part of the second unless it leaves the
/// first whole.
pub(crate) fn write_one_by_one<D: Disk>(
    disk: &mut D,
    first_at: u64,
    first: &[u8],
    second_at: u64,
    second: &[u8],
) -> Result<(), DiskFailed>
    requires first { first_at + length first.now ≤ second_at }
    requires second { second_at + length second.now ≤ 2 ^ 63 - 1 }
    ensures written { OnOk result (D.contents disk.new ≡ option_map
        (λ bytes. written second_at second.now (written first_at first.now bytes)) (D.contents disk.old)) }
    ensures only { OnOk result (IfTold (D.contents disk.new) (λ told. (left : List ℕ) → D.image disk.new left
        → left ≡ told)) }
    ensures torn { OnErr result (TornIfTold first_at (second_at + length second.now - first_at)
        (D.contents disk.old) (D.contents disk.new)) }
    ensures in_order { IfTold (D.contents disk.old) (λ bytes. LeavesOnly D.moment D.since disk.old disk.new
        (IsInOrder (D.image disk.old) bytes first_at first.now second_at (length second.now))) }
    ensures cause { HasCause (D.count disk.old) (D.count disk.new) result }
    ensures made { MakesCalls 2 2 (D.made disk.old) (D.made disk.new) result }
{
    write_and_sync(disk, first_at, first)?;
    write_and_sync(disk, second_at, second)
}
