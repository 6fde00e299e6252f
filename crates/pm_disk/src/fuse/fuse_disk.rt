ghost use Rattle.pm_disk.specs.Fuse.Missed.{IsWhole};
ghost use Rattle.std.specs.Prelude.{◌≡◌, min};
ghost use Rattle.pm_disk.specs.Disk.{HasCause};

use crate::fuse::{Missed, Misses};
use crate::{Disk, DiskFailed};

/// A disk that passes so many calls on to another, and from then on fails each one, which never reaches the other.
/// It takes no memory.
#[derive(Drop)]
pub struct FuseDisk<D> {
    inner: D,
    left: u64,
    faults: u64,
    missed: Misses,
    ghost whole: { IsWhole left missed.marks },
}

impl<D: Disk> FuseDisk<D> {
    ghost use Rattle.std.specs.Prelude.{◌≡◌, ◌-◌, ◌==◌, not, []};
    ghost use Rattle.pm_disk.specs.Fuse.FuseDisk.{inner_of, left_of, missed_of, count_of, moment_of, made_of, IsSpent};

    /// A disk that passes this many calls on. It begins with the other disk's count of failed calls.
    pub fn new(inner: D, passes: u64) -> FuseDisk<D>
        ensures inner { inner_of result ≡ inner }
        ensures contents { ⟦<FuseDisk<D> as Disk>⟧.contents result ≡ D.contents inner }
        ensures left { left_of result ≡ passes }
        ensures missed { missed_of result ≡ [] }
        ensures count { count_of result ≡ D.count inner }
        ensures moment { moment_of D.moment result ≡ D.moment inner }
        ensures made { made_of D.contents D.moment D.made result ≡ D.made inner }
    {
        let faults = inner.faults();
        FuseDisk {
            inner,
            left: passes,
            faults,
            missed: Misses::new(),
        }
    }

    /// The other disk, with its own count of failed calls.
    pub fn into_inner(self) -> D
        ensures { result ≡ inner_of self }
    {
        self.inner
    }

    /// The other disk.
    pub fn inner(&self) -> &D
        ensures { result.now ≡ inner_of self.now }
    {
        &self.inner
    }

    /// How many calls more are passed on.
    pub fn left(&self) -> u64
        ensures { result ≡ left_of self.now }
    {
        self.left
    }

    /// Takes a call: whether it is passed on. Where it is not, it has failed and was counted.
    fn spend(&mut self, call: Missed) -> bool
        ensures passes { result ≡ not (left_of self.old == 0) }
        ensures inner { inner_of self.new ≡ inner_of self.old }
        ensures left { left_of self.new ≡ left_of self.old - 1 }
        ensures rest { IsSpent call self.old self.new }
    {
        if self.left == 0 {
            self.faults = self.faults.saturating_add(1);
            self.missed = self.missed.after(&call);
            return false;
        }
        self.left -= 1;
        true
    }
}

/// Counts a failure of the other disk.
fn noted<T>(faults: &mut u64, outcome: Result<T, DiskFailed>) -> Result<T, DiskFailed>
    ensures same { result ≡ outcome }
    ensures cause { HasCause faults.old faults.new outcome }
{
    if outcome.is_err() {
        *faults = faults.saturating_add(1);
    }
    outcome
}

impl<D: Disk> Disk for FuseDisk<D> {
    ghost use Rattle.std.specs.Prelude.{◌≡◌, ◌+◌, ◌-◌, ◌^◌, ◌≤◌, ℕ, List, length, take, drop, option_map, IfOk, OnOk, OnErr};
    ghost use Rattle.pm_disk.specs.Writes.{written, TornIfTold};
    ghost use Rattle.pm_disk.specs.Made.{with_sync, with_write, with_read};
    ghost use Rattle.pm_disk.specs.Disk.{IfTold, SameImages, OnlyTorn, AllTorn, Elapses, HasCause};
    ghost use Rattle.pm_disk.specs.Fuse.FuseDisk.{inner_of, left_of, count_of, moment_of, MayHaveLeft, made_of, Answers};
    ghost use Rattle.pm_disk.specs.Fuse.FuseDiskLaws.{counts_now_of, only_now_of, earlier_of};

    ghost contents = { λ disk. D.contents (inner_of disk) };

    ghost image = { λ disk. D.image (inner_of disk) };

    ghost moment = { moment_of D.moment };

    ghost since = { MayHaveLeft D.moment D.since };

    ghost count = { count_of };

    ghost made = { made_of D.contents D.moment D.made };

    ghost counts_now = { counts_now_of D.image D.moment D.since D.counts_now };

    ghost only_now = { only_now_of D.image D.moment D.since D.only_now };

    ghost earlier = { earlier_of D.moment D.since D.earlier };

    ghost contents_stay = { λ disk. D.contents_stay (inner_of disk) };

    ghost leaves_bytes = { λ disk t. D.leaves_bytes (inner_of disk) (min t (D.moment (inner_of disk))) };

    fn faults(&self) -> u64 {
        self.faults
    }

    fn len(&mut self) -> Result<u64, DiskFailed>
        ensures len { IfOk result (λ n. IfTold (D.contents (inner_of self.old)) (λ bytes. n ≡ length bytes)) }
        ensures contents { D.contents (inner_of self.new) ≡ D.contents (inner_of self.old) }
        ensures images { SameImages (D.image (inner_of self.old)) (D.image (inner_of self.new)) }
        ensures time { Elapses (moment_of D.moment self.old) (moment_of D.moment self.new)
            (MayHaveLeft D.moment D.since self.old) (MayHaveLeft D.moment D.since self.new)
            (D.image (inner_of self.new)) }
        ensures cause { HasCause (count_of self.old) (count_of self.new) result }
        ensures made { made_of D.contents D.moment D.made self.new ≡ made_of D.contents D.moment D.made self.old }
        ensures exact { Answers D.moment D.count Missed.Len self.old self.new result }
    {
        if self.spend(Missed::Len) {
            noted(&mut self.faults, self.inner.len())
        } else {
            Err(DiskFailed)
        }
    }

    fn read_at(&mut self, at: u64, into: &mut [u8]) -> Result<(), DiskFailed>
        ensures within { OnOk result (IfTold (D.contents (inner_of self.old))
            (λ bytes. at + length into.old ≤ length bytes)) }
        ensures read { OnOk result (IfTold (D.contents (inner_of self.old))
            (λ bytes. into.new ≡ take (length into.old) (drop at bytes))) }
        ensures unread { left_of self.old ≡ 0 → into.new ≡ into.old }
        ensures contents { D.contents (inner_of self.new) ≡ D.contents (inner_of self.old) }
        ensures images { SameImages (D.image (inner_of self.old)) (D.image (inner_of self.new)) }
        ensures time { Elapses (moment_of D.moment self.old) (moment_of D.moment self.new)
            (MayHaveLeft D.moment D.since self.old) (MayHaveLeft D.moment D.since self.new)
            (D.image (inner_of self.new)) }
        ensures cause { HasCause (count_of self.old) (count_of self.new) result }
        ensures made { made_of D.contents D.moment D.made self.new ≡ with_read (D.contents (inner_of self.old)) at
            (length into.old) (made_of D.contents D.moment D.made self.old) }
        ensures exact { Answers D.moment D.count (Missed.Read at (length into.old)) self.old self.new result }
    {
        let call = Missed::Read {
            at,
            len: into.len() as u64,
        };
        if self.spend(call) {
            noted(&mut self.faults, self.inner.read_at(at, into))
        } else {
            Err(DiskFailed)
        }
    }

    fn write_at(&mut self, at: u64, from: &[u8]) -> Result<(), DiskFailed>
        requires { at + length from.now ≤ 2 ^ 63 - 1 }
        ensures written { OnOk result (D.contents (inner_of self.new) ≡ option_map (written at from.now)
            (D.contents (inner_of self.old))) }
        ensures torn { OnErr result (TornIfTold at (length from.now) (D.contents (inner_of self.old))
            (D.contents (inner_of self.new))) }
        ensures only_torn { OnlyTorn at (length from.now) (D.image (inner_of self.old)) (D.image (inner_of self.new)) }
        ensures all_torn { OnOk result (AllTorn at (length from.now) (D.image (inner_of self.old))
            (D.image (inner_of self.new))) }
        ensures none_lost { (bytes : List ℕ) → D.image (inner_of self.old) bytes → D.image (inner_of self.new) bytes }
        ensures time { Elapses (moment_of D.moment self.old) (moment_of D.moment self.new)
            (MayHaveLeft D.moment D.since self.old) (MayHaveLeft D.moment D.since self.new)
            (D.image (inner_of self.new)) }
        ensures cause { HasCause (count_of self.old) (count_of self.new) result }
        ensures made { made_of D.contents D.moment D.made self.new ≡ with_write
            (made_of D.contents D.moment D.made self.old) }
        ensures exact { Answers D.moment D.count Missed.Write self.old self.new result }
    {
        if self.spend(Missed::Write) {
            noted(&mut self.faults, self.inner.write_at(at, from))
        } else {
            Err(DiskFailed)
        }
    }

    fn sync(&mut self) -> Result<(), DiskFailed>
        ensures contents { D.contents (inner_of self.new) ≡ D.contents (inner_of self.old) }
        ensures only { OnOk result (IfTold (D.contents (inner_of self.old)) (λ bytes. (left : List ℕ)
            → D.image (inner_of self.new) left → left ≡ bytes)) }
        ensures no_more { (bytes : List ℕ) → D.image (inner_of self.new) bytes → D.image (inner_of self.old) bytes }
        ensures failed { OnErr result (SameImages (D.image (inner_of self.old)) (D.image (inner_of self.new))) }
        ensures time { Elapses (moment_of D.moment self.old) (moment_of D.moment self.new)
            (MayHaveLeft D.moment D.since self.old) (MayHaveLeft D.moment D.since self.new)
            (D.image (inner_of self.new)) }
        ensures cause { HasCause (count_of self.old) (count_of self.new) result }
        ensures made { made_of D.contents D.moment D.made self.new ≡ with_sync (moment_of D.moment self.old)
            (made_of D.contents D.moment D.made self.old) }
        ensures exact { Answers D.moment D.count Missed.Sync self.old self.new result }
    {
        if self.spend(Missed::Sync) {
            noted(&mut self.faults, self.inner.sync())
        } else {
            Err(DiskFailed)
        }
    }
}
