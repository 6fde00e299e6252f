ghost use Rattle.std.specs.Prelude.{◌≡◌, IfOk, OnOk, OnErr};
ghost use Rattle.pm_disk.specs.Disk.{HasCause};
ghost use Rattle.pm_file.specs.Calls.{SameOk};

use crate::opening::{Held, hold};
use crate::syncing::sync;
use crate::{StoreFile, StoreFiles};
use pm_disk::{CallKind, Disk, DiskFailed, Mark, Moments};
use pm_types::NoMemory;
use std::alloc::Global;
use std::io;

/// A file of the operating system as a disk. It tells what the files below it tell, so of real ones nothing: by its contract
/// a crash may then leave any bytes. The count of faults is kept.
///
/// While it is open no other process opens it as a disk, and none of the three standard streams has
/// its descriptor: each of them that is closed is opened on the null device before, and stays so until
/// the process ends. What reads there finds the end, and what writes there fails.
#[derive(Drop)]
pub struct FileDisk<R: StoreFiles> {
    rt: R,
    path: String,
    file: Option<Held<R::File>>,
    moments: Moments,
    faults: u64,
}

/// Counts a failure. At 2^64 - 1 the count stays.
fn counted<T>(outcome: io::Result<T>, faults: &mut u64) -> Result<T, DiskFailed>
    ensures same { SameOk outcome result }
    ensures cause { HasCause faults.old faults.new result }
{
    match outcome {
        Ok(answer) => Ok(answer),
        Err(_) => {
            *faults = faults.saturating_add(1);
            Err(DiskFailed)
        }
    }
}

impl<R: StoreFiles + Drop> FileDisk<R> {
    ghost use Rattle.std.specs.Prelude.{◌≡◌, Some, None, length, string_bytes, IfOk, OnOk, OnErr};
    ghost use Rattle.pm_disk.specs.Disk.{SameImages, HasCause};
    ghost use Rattle.pm_file.specs.Calls.{SameEach, told_in, left_in, since_in, past_in, IsHeld, MarksCall};

    /// The disk that the file of this path is. It touches nothing: the first call of the disk fills the
    /// standard streams, opens the file for reading and writing, makes it where it is missing, and
    /// locks it. Where one of these cannot be had, that call fails, and the next one tries again.
    ///
    /// The first sync of a file that was empty when it was opened syncs its folder before.
    pub fn at(rt: R, alloc: Global, path: &str) -> Result<FileDisk<R>, NoMemory>
        ensures count { IfOk result (λ disk. ⟦<FileDisk<R> as Disk>⟧.count disk ≡ 0) }
        ensures uncalled { IfOk result (λ disk. ⟦<FileDisk<R> as Disk>⟧.moment disk ≡ 0) }
        ensures contents { IfOk result (λ disk. ⟦<FileDisk<R> as Disk>⟧.contents disk ≡ R.lies rt path.now) }
        ensures images { IfOk result (λ disk. SameImages (R.leaves rt path.now)
            (⟦<FileDisk<R> as Disk>⟧.image disk)) }
        ensures path { IfOk result (λ disk. string_bytes disk.path ≡ path.now) }
    {
        Ok(FileDisk {
            rt,
            path: path.to_string(alloc)?,
            file: None,
            moments: Moments::new(),
            faults: 0,
        })
    }

    /// Opens the file unless it is open, and marks a call of this kind. `end` is that of a read, or 0. Where the file
    /// cannot be opened, the call has failed and was counted.
    fn reach(&mut self, kind: CallKind, end: u64) -> Result<(), DiskFailed>
        ensures held { OnOk result (IsHeld self.new.file) }
        ensures missed { OnErr result (self.new.file ≡ None) }
        ensures marked { MarksCall kind end self.old.moments.marks self.new.moments.marks result }
        ensures cause { HasCause self.old.faults self.new.faults result }
        ensures lies { R.lies self.new.rt (string_bytes self.new.path)
            ≡ R.lies self.old.rt (string_bytes self.old.path) }
        ensures contents { told_in (λ held. R.File.contents held.file)
            (R.lies self.new.rt (string_bytes self.new.path)) self.new.file ≡
            told_in (λ held. R.File.contents held.file)
            (R.lies self.old.rt (string_bytes self.old.path)) self.old.file }
        ensures images { SameImages
            (left_in (λ held. R.File.image held.file) (R.leaves self.old.rt (string_bytes self.old.path)) self.old.file)
            (left_in (λ held. R.File.image held.file) (R.leaves self.new.rt (string_bytes self.new.path)) self.new.file) }
        ensures since { SameEach
            (since_in (λ held. R.File.since held.file) (R.leaves self.old.rt (string_bytes self.old.path)) self.old.file)
            (since_in (λ held. R.File.since held.file) (R.leaves self.new.rt (string_bytes self.new.path)) self.new.file) }
        ensures past { past_in (λ held. R.File.past held.file) self.new.file ≡
            past_in (λ held. R.File.past held.file) self.old.file }
    {
        if self.file.is_none() {
            match hold(&mut self.rt, self.path.as_str()) {
                Ok(held) => self.file = Some(held),
                Err(_) => {
                    self.moments = self.moments.after(&Mark { number: end, kind });
                    self.faults = self.faults.saturating_add(1);
                    return Err(DiskFailed);
                }
            }
        }
        self.moments = self.moments.after(&Mark { number: 0, kind });
        Ok(())
    }
}

impl<R: StoreFiles + Drop> Disk for FileDisk<R> {
    ghost use Rattle.std.specs.Prelude.{◌+◌, ◌-◌, length, string_bytes};
    ghost use Rattle.pm_disk.specs.Made.{numbers};
    ghost use Rattle.pm_file.specs.Calls.{told_in, left_in, since_in, past_in, missed_past, made_with};
    ghost use Rattle.pm_file.specs.Laws.{counts_now_in, only_now_in, earlier_in, contents_stay_in, leaves_bytes_in};

    ghost contents = { λ disk. told_in (λ held. R.File.contents held.file)
        (R.lies disk.rt (string_bytes disk.path)) disk.file };

    ghost image = { λ disk. left_in (λ held. R.File.image held.file)
        (R.leaves disk.rt (string_bytes disk.path)) disk.file };

    ghost moment = { λ disk. length (numbers disk.moments.marks) };

    ghost since = { λ disk t. since_in (λ held. R.File.since held.file)
        (R.leaves disk.rt (string_bytes disk.path)) disk.file (length (numbers disk.moments.marks) - t) };

    ghost count = { λ disk. disk.faults };

    ghost made = { λ disk. made_with (past_in (λ held. R.File.past held.file) disk.file
        + missed_past (R.lies disk.rt (string_bytes disk.path)) disk.moments.marks) disk.moments.marks };

    ghost counts_now = { λ disk t bytes le. counts_now_in (λ held. R.File.image held.file)
        (λ held. R.File.since held.file) (R.leaves disk.rt (string_bytes disk.path))
        (λ held. R.File.counts_now held.file) disk.file (length (numbers disk.moments.marks) - t) bytes };

    ghost only_now = { λ disk. only_now_in (λ held. R.File.image held.file)
        (λ held. R.File.since held.file) (R.leaves disk.rt (string_bytes disk.path))
        (λ held. R.File.only_now held.file) disk.file (length (numbers disk.moments.marks)) };

    ghost earlier = { λ disk. earlier_in (λ held. R.File.since held.file)
        (R.leaves disk.rt (string_bytes disk.path))
        (λ held. R.File.earlier held.file) disk.file (length (numbers disk.moments.marks)) };

    ghost contents_stay = { λ disk. contents_stay_in (λ held. R.File.contents held.file)
        (λ held. R.File.image held.file) (R.lies disk.rt (string_bytes disk.path))
        (R.leaves disk.rt (string_bytes disk.path)) (λ held. R.File.contents_stay held.file)
        (R.lying_stays disk.rt (string_bytes disk.path)) disk.file };

    ghost leaves_bytes = { λ disk t bytes. leaves_bytes_in (λ held. R.File.since held.file)
        (R.leaves disk.rt (string_bytes disk.path)) (λ held. R.File.leaves_bytes held.file)
        (R.left_bytes disk.rt (string_bytes disk.path)) disk.file
        (length (numbers disk.moments.marks) - t) bytes };

    fn faults(&self) -> u64 {
        self.faults
    }

    fn len(&mut self) -> Result<u64, DiskFailed> {
        self.reach(CallKind::Look, 0)?;
        let Some(held) = &mut self.file else {
            unreachable!()
        };
        let outcome = held.file.measure();
        counted(outcome, &mut self.faults)
    }

    fn read_at(&mut self, at: u64, into: &mut [u8]) -> Result<(), DiskFailed> {
        let end = at.saturating_add(into.len() as u64);
        self.reach(CallKind::Look, end)?;
        let Some(held) = &mut self.file else {
            unreachable!()
        };
        let outcome = held.file.read_from(at, into);
        counted(outcome, &mut self.faults)
    }

    fn write_at(&mut self, at: u64, from: &[u8]) -> Result<(), DiskFailed> {
        self.reach(CallKind::Write, 0)?;
        let Some(held) = &mut self.file else {
            unreachable!()
        };
        let outcome = held.file.write_over(at, from);
        counted(outcome, &mut self.faults)
    }

    fn sync(&mut self) -> Result<(), DiskFailed> {
        self.reach(CallKind::Sync, 0)?;
        let Some(held) = &mut self.file else {
            unreachable!()
        };
        let outcome = sync(&self.rt, self.path.as_str(), held);
        counted(outcome, &mut self.faults)
    }
}
