//! What one crash leaves of a disk in memory.
ghost use Rattle.std.specs.Prelude.{◌≡◌, ◌+◌, ◌^◌, ◌<◌, ◌≤◌, ℕ, length, if◌then◌else◌, IfOk, OnOk, IsTrue, false};
ghost use Rattle.pm_disk.specs.Writes.{written};
ghost use Rattle.pm_disk.specs.Replay.{Held, fresh, after, held_after, is_picked, picked};
ghost use Rattle.pm_disk.specs.Sound.{ArePlaced, is_placed};
ghost use Rattle.pm_disk.specs.Crash.{Follows};

use crate::DiskCall;
use crate::overwrite::overwrite;
use std::alloc::{AllocError, Global};

/// What the calls so far made of a disk, and what a crash with some pick leaves of it.
#[derive(Drop)]
pub(crate) struct Crashed {
    contents: Vec<u8>,
    image: Vec<u8>,
    /// How many writes were made since the last sync.
    writes: u64,
}

/// Bit `number` of the pick is 1. There is none from number 64 on.
fn is_kept(pick: u64, number: u64) -> bool
    ensures { result ≡ is_picked pick number }
{
    number < 64 && (pick >> number) % 2 == 1
}

/// Writes over these bytes from place `at` on, where that is wanted.
fn overwrite_if(wanted: bool, file: &mut Vec<u8>, at: u64, bytes: &[u8]) -> Result<(), AllocError>
    requires { at + length bytes.now < 2 ^ 63 }
    ensures { OnOk result (file.new.items ≡ (if wanted then written at bytes.now file.old.items else file.old.items)) }
{
    if wanted {
        overwrite(file, at, bytes)?;
    }
    Ok(())
}

impl Crashed {
    /// No call was made yet.
    fn new(alloc: Global, pick: u64, start: &[u8]) -> Result<Crashed, AllocError>
        ensures { IfOk result (Follows pick (fresh start.now)) }
    {
        Ok(Crashed {
            contents: start.to_vec(alloc)?,
            image: start.to_vec(alloc)?,
            writes: 0,
        })
    }

    /// One write more, which was made.
    fn write(&mut self, pick: u64, at: u64, bytes: &[u8]) -> Result<(), AllocError>
        requires placed { at + length bytes.now < 2 ^ 63 }
        requires few { self.old.writes < 2 ^ 63 }
        ensures follows { IfOk result (λ _. (held : Held) → Follows pick held self.old
            → Follows pick (after false (DiskCall.Write at bytes.now) held) self.new) }
        ensures few { self.new.writes ≤ self.old.writes + 1 }
    {
        overwrite(&mut self.contents, at, bytes)?;
        overwrite_if(is_kept(pick, self.writes), &mut self.image, at, bytes)?;
        self.writes += 1;
        Ok(())
    }

    /// A sync that was made.
    fn sync(&mut self, alloc: Global) -> Result<(), AllocError>
        ensures follows { IfOk result (λ _. (pick : ℕ) (held : Held) → Follows pick held self.old
            → Follows pick (after false DiskCall.Sync held) self.new) }
        ensures few { self.new.writes ≤ self.old.writes + 1 }
    {
        self.image = self.contents.as_slice().to_vec(alloc)?;
        self.writes = 0;
        Ok(())
    }

    /// One call more, which failed or was made.
    fn call(
        &mut self,
        alloc: Global,
        pick: u64,
        fails: bool,
        call: &DiskCall,
    ) -> Result<(), AllocError>
        requires placed { IsTrue (is_placed call.now) }
        requires few { self.old.writes < 2 ^ 63 }
        ensures follows { IfOk result (λ _. (held : Held) → Follows pick held self.old
            → Follows pick (after fails call.now held) self.new) }
        ensures few { self.new.writes ≤ self.old.writes + 1 }
    {
        if fails {
            return Ok(());
        }
        match call {
            DiskCall::Write { at, bytes } => self.write(pick, *at, bytes.as_slice()),
            DiskCall::Sync => self.sync(alloc),
            DiskCall::Len | DiskCall::Read { .. } => Ok(()),
        }
    }
}

/// What a crash with this pick leaves of a disk that began with these bytes, after these calls, of
/// which those with these numbers failed.
pub(crate) fn image_after(
    alloc: Global,
    pick: u64,
    start: &[u8],
    fails: &[u64],
    calls: &[DiskCall],
) -> Result<Vec<u8>, AllocError>
    requires { ArePlaced calls.now }
    ensures { IfOk result (λ image. let held = held_after start.now fails.now calls.now in image.items ≡ picked pick
        0 held.changes held.synced) }
{
    let mut crashed = Crashed::new(alloc, pick, start)?;
    for (place, call) in calls.iter().enumerate() {
        let fails_here = fails.contains(&(place as u64 + 1));
        crashed.call(alloc, pick, fails_here, call)?;
    }
    Ok(crashed.image)
}
