ghost use Rattle.std.specs.Prelude.{◌≡◌, length};
ghost use Rattle.pm_disk.specs.Replay.{held_after};
ghost use Rattle.pm_disk.specs.Made.{numbers};
ghost use Rattle.pm_disk.specs.History.{IsMarked};
ghost use Rattle.pm_disk.specs.Sound.{IsSound, ArePlaced, shown};

use crate::crash::image_after;
use crate::noting::{note, note_write, settle};
use crate::reading::{copy_out, is_past, kind_of};
use crate::{CallKind, Disk, DiskCall, DiskFailed, Mark, Moments};
use pm_types::NoMemory;
use std::alloc::Global;

/// A disk in memory that fails and crashes on demand. It keeps all its calls, and what a crash may
/// leave is what they say. A call's number is its place in their list, from 1.
#[derive(Drop)]
pub struct MemDisk {
    start: Vec<u8>,
    /// None until the first write is made.
    changed: Option<Vec<u8>>,
    fails: Vec<u64>,
    calls: Vec<DiskCall>,
    moments: Moments,
    faults: u64,
    refused: u64,
    ghost shows: { shown start.items changed ≡ (held_after start.items fails.items calls.items).contents },
    ghost sound: { IsSound (held_after start.items fails.items calls.items) },
    ghost placed: { ArePlaced calls.items },
    ghost marked: { IsMarked (numbers moments.marks) (length calls.items) },
}

impl MemDisk {
    ghost use Rattle.std.specs.Prelude.{◌≡◌, ◌+◌, ◌^◌, ◌<◌, ◌||◌, [], length, IfOk};
    ghost use Rattle.pm_disk.specs.Replay.{picked};
    ghost use Rattle.pm_disk.specs.Made.{none_made, with_write, with_kind};
    ghost use Rattle.pm_disk.specs.Disk.{SameImages, Elapses, HasCause};
    ghost use Rattle.pm_disk.specs.Outcomes.{IsQuiet, IsLook};
    ghost use Rattle.pm_disk.specs.MemDisk.{start_of, fails_of, calls_of, refused_of, held_of, contents_of, MayLeave, moment_of, MayHaveLeft, count_of, made_of, fails_next, Answers};

    /// A disk that holds these bytes, all of them synced, and that fails the calls of these numbers.
    pub fn new(contents: Vec<u8>, fails: Vec<u64>) -> MemDisk
        ensures start { start_of result ≡ contents.items }
        ensures fails { fails_of result ≡ fails.items }
        ensures calls { calls_of result ≡ [] }
        ensures moment { moment_of result ≡ 0 }
        ensures count { count_of result ≡ 0 }
        ensures refused { refused_of result ≡ 0 }
        ensures made { made_of result ≡ none_made }
    {
        let alloc = *contents.allocator();
        MemDisk {
            start: contents,
            changed: None,
            fails,
            calls: Vec::new(alloc),
            moments: Moments::new(),
            faults: 0,
            refused: 0,
        }
    }

    /// The bytes that a read answers. It takes no memory, and is no call.
    pub fn contents(&self) -> &[u8]
        ensures { result.now ≡ contents_of self.now }
    {
        match &self.changed {
            None => &self.start,
            Some(bytes) => bytes,
        }
    }

    /// All its calls in their order, those that failed among them, but for those that were refused
    /// memory.
    pub fn calls(&self) -> &[DiskCall]
        ensures { result.now ≡ calls_of self.now }
    {
        &self.calls
    }

    /// How many calls were refused memory. At 2^64 - 1 it stays, and has risen all the same.
    pub fn refused(&self) -> u64
        ensures { result ≡ refused_of self.now }
    {
        self.refused
    }

    /// What one crash at this moment leaves: of the writes since the last sync, numbered from 0 and
    /// without those that failed, number i is kept where bit i of `pick` is 1, and none from number
    /// 64 on. It is no call.
    pub fn image(&self, alloc: Global, pick: u64) -> Result<Vec<u8>, NoMemory>
        ensures value { IfOk result
            (λ image. let held = held_of self.now in image.items ≡ picked pick 0 held.changes held.synced) }
        ensures left { IfOk result (λ image. MayLeave self.now image.items) }
    {
        Ok(image_after(alloc, pick, &self.start, &self.fails, &self.calls)?)
    }

    /// Makes a call that writes nothing. `past` says that it fails in any case.
    fn pass(&mut self, past: bool, kind: CallKind, call: DiskCall) -> Result<(), DiskFailed>
        requires { IsQuiet call }
        ensures exact { Answers (fails_next self.old || past) call self.old self.new result }
        ensures contents { contents_of self.new ≡ contents_of self.old }
        ensures looks { IsLook call → SameImages (MayLeave self.old) (MayLeave self.new) }
        ensures time { Elapses (moment_of self.old) (moment_of self.new) (MayHaveLeft self.old)
            (MayHaveLeft self.new) (MayLeave self.new) }
        ensures cause { HasCause (count_of self.old) (count_of self.new) result }
        ensures made { made_of self.new ≡ with_kind kind (moment_of self.old) (made_of self.old) }
    {
        let mark = Mark {
            number: self.calls.len() as u64,
            kind,
        };
        self.moments = self.moments.after(&mark);
        let outcome = note(&self.fails, past, &mut self.calls, call);
        settle(outcome, &mut self.faults, &mut self.refused)
    }

    /// Makes a write.
    fn put(&mut self, at: u64, from: &[u8]) -> Result<(), DiskFailed>
        requires { at + length from.now < 2 ^ 63 }
        ensures exact { Answers (fails_next self.old) (DiskCall.Write at from.now) self.old self.new result }
        ensures time { Elapses (moment_of self.old) (moment_of self.new) (MayHaveLeft self.old)
            (MayHaveLeft self.new) (MayLeave self.new) }
        ensures cause { HasCause (count_of self.old) (count_of self.new) result }
        ensures made { made_of self.new ≡ with_write (made_of self.old) }
    {
        let mark = Mark {
            number: self.calls.len() as u64,
            kind: CallKind::Write,
        };
        self.moments = self.moments.after(&mark);
        let outcome = note_write(
            &self.start,
            &mut self.changed,
            &self.fails,
            &mut self.calls,
            at,
            from,
        );
        settle(outcome, &mut self.faults, &mut self.refused)
    }
}

impl Disk for MemDisk {
    ghost use Rattle.std.specs.Prelude.{◌≡◌, ◌||◌, ◌+◌, ◌-◌, ◌^◌, ◌≤◌, ℕ, List, Some, false, length, take, drop, IfOk, OnOk, OnErr};
    ghost use Rattle.pm_disk.specs.Writes.{written, TornIfTold};
    ghost use Rattle.pm_disk.specs.Made.{with_sync, with_write, with_read};
    ghost use Rattle.pm_disk.specs.Disk.{SameImages, OnlyTorn, AllTorn, Elapses, HasCause};
    ghost use Rattle.pm_disk.specs.MemDisk.{start_of, fails_of, calls_of, contents_of, MayLeave, moment_of, MayHaveLeft, count_of, made_of, fails_next, Answers};
    ghost use Rattle.pm_disk.specs.Reads.{reads_past};
    ghost use Rattle.pm_disk.specs.MemDiskLaws.{counts_now_of, only_now_of, earlier_of, contents_stay_of, leaves_bytes_of};

    ghost contents = { λ disk. Some (contents_of disk) };

    ghost image = { MayLeave };

    ghost moment = { moment_of };

    ghost since = { MayHaveLeft };

    ghost count = { count_of };

    ghost made = { made_of };

    ghost counts_now = { counts_now_of };

    ghost only_now = { only_now_of };

    ghost earlier = { earlier_of };

    ghost contents_stay = { contents_stay_of };

    ghost leaves_bytes = { leaves_bytes_of };

    fn faults(&self) -> u64 {
        self.faults
    }

    fn len(&mut self) -> Result<u64, DiskFailed>
        ensures len { IfOk result (λ n. n ≡ length (contents_of self.old)) }
        ensures contents { contents_of self.new ≡ contents_of self.old }
        ensures images { SameImages (MayLeave self.old) (MayLeave self.new) }
        ensures time { Elapses (moment_of self.old) (moment_of self.new) (MayHaveLeft self.old)
            (MayHaveLeft self.new) (MayLeave self.new) }
        ensures cause { HasCause (count_of self.old) (count_of self.new) result }
        ensures made { made_of self.new ≡ made_of self.old }
        ensures exact { Answers (fails_next self.old) DiskCall.Len self.old self.new result }
    {
        self.pass(false, CallKind::Look, DiskCall::Len)?;
        Ok(self.contents().len() as u64)
    }

    fn read_at(&mut self, at: u64, into: &mut [u8]) -> Result<(), DiskFailed>
        ensures within { OnOk result (at + length into.old ≤ length (contents_of self.old)) }
        ensures read { OnOk result (into.new ≡ take (length into.old) (drop at (contents_of self.old))) }
        ensures unread { OnErr result (into.new ≡ into.old) }
        ensures contents { contents_of self.new ≡ contents_of self.old }
        ensures images { SameImages (MayLeave self.old) (MayLeave self.new) }
        ensures time { Elapses (moment_of self.old) (moment_of self.new) (MayHaveLeft self.old)
            (MayHaveLeft self.new) (MayLeave self.new) }
        ensures cause { HasCause (count_of self.old) (count_of self.new) result }
        ensures made { made_of self.new ≡ with_read (Some (contents_of self.old)) at (length into.old)
            (made_of self.old) }
        ensures exact { Answers (fails_next self.old || reads_past at (length into.old) (contents_of self.old))
            (DiskCall.Read at (length into.old)) self.old self.new result }
    {
        let past = is_past(self.contents(), at, into);
        self.pass(
            past,
            kind_of(past),
            DiskCall::Read {
                at,
                len: into.len() as u64,
            },
        )?;
        copy_out(self.contents(), at as usize, into);
        Ok(())
    }

    fn write_at(&mut self, at: u64, from: &[u8]) -> Result<(), DiskFailed>
        requires { at + length from.now ≤ 2 ^ 63 - 1 }
        ensures written { OnOk result (Some (contents_of self.new) ≡ Some
            (written at from.now (contents_of self.old))) }
        ensures torn { OnErr result (TornIfTold at (length from.now) (Some (contents_of self.old))
            (Some (contents_of self.new))) }
        ensures unwritten { OnErr result (contents_of self.new ≡ contents_of self.old) }
        ensures only_torn { OnlyTorn at (length from.now) (MayLeave self.old) (MayLeave self.new) }
        ensures all_torn { OnOk result (AllTorn at (length from.now) (MayLeave self.old) (MayLeave self.new)) }
        ensures none_lost { (bytes : List ℕ) → MayLeave self.old bytes → MayLeave self.new bytes }
        ensures time { Elapses (moment_of self.old) (moment_of self.new) (MayHaveLeft self.old)
            (MayHaveLeft self.new) (MayLeave self.new) }
        ensures cause { HasCause (count_of self.old) (count_of self.new) result }
        ensures made { made_of self.new ≡ with_write (made_of self.old) }
        ensures exact { Answers (fails_next self.old) (DiskCall.Write at from.now) self.old self.new result }
    {
        self.put(at, from)
    }

    fn sync(&mut self) -> Result<(), DiskFailed>
        ensures contents { contents_of self.new ≡ contents_of self.old }
        ensures only { OnOk result ((left : List ℕ) → MayLeave self.new left → left ≡ contents_of self.old) }
        ensures no_more { (bytes : List ℕ) → MayLeave self.new bytes → MayLeave self.old bytes }
        ensures failed { OnErr result (SameImages (MayLeave self.old) (MayLeave self.new)) }
        ensures time { Elapses (moment_of self.old) (moment_of self.new) (MayHaveLeft self.old)
            (MayHaveLeft self.new) (MayLeave self.new) }
        ensures cause { HasCause (count_of self.old) (count_of self.new) result }
        ensures made { made_of self.new ≡ with_sync (moment_of self.old) (made_of self.old) }
        ensures exact { Answers (fails_next self.old) DiskCall.Sync self.old self.new result }
    {
        self.pass(false, CallKind::Sync, DiskCall::Sync)
    }
}
