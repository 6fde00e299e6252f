//! Syncs of a file that is held: its name first, where a crash may lose it, and then the file.
ghost use Rattle.std.specs.Prelude.{◌≡◌, ℕ, true, List, OnOk, OnErr};
ghost use Rattle.pm_disk.specs.Disk.{IfTold, SameImages};
ghost use Rattle.pm_file.specs.Calls.{Ticks, SameEach};

use crate::folder::folder_of;
use crate::opening::Held;
use crate::{StoreFile, StoreFiles};
use std::io;

// Syncs the folder of the file, where a crash may still lose the file's name.
fn keep_name<R: StoreFiles>(files: &R, path: &str, held: &mut Held<R::File>) -> io::Result<()>
    ensures named { OnOk result ((R.File.standing held.new.file).named ≡ true) }
    ensures contents { R.File.contents held.new.file ≡ R.File.contents held.old.file }
    ensures images { SameImages (R.File.image held.old.file) (R.File.image held.new.file) }
    ensures since { OnOk result (SameEach (R.File.since held.old.file) (R.File.since held.new.file)) }
    ensures time { OnErr result (Ticks (R.File.since held.old.file) (R.File.since held.new.file)
        (R.File.image held.new.file)) }
    ensures past { R.File.past held.new.file ≡ R.File.past held.old.file }
{
    if held.may_lose_name {
        files.sync_names(path, folder_of(path), &mut held.file)?;
        held.may_lose_name = false;
    }
    Ok(())
}

// Syncs all that the file has, until that has succeeded, and from then on its bytes and its length.
fn sync_file<F: StoreFile>(held: &mut Held<F>) -> io::Result<()>
    requires { (F.standing held.old.file).named ≡ true }
    ensures contents { F.contents held.new.file ≡ F.contents held.old.file }
    ensures only { OnOk result (IfTold (F.contents held.old.file) (λ bytes. (left : List ℕ) → F.image held.new.file left
        → left ≡ bytes)) }
    ensures no_more { (bytes : List ℕ) → F.image held.new.file bytes → F.image held.old.file bytes }
    ensures failed { OnErr result (SameImages (F.image held.old.file) (F.image held.new.file)) }
    ensures time { Ticks (F.since held.old.file) (F.since held.new.file) (F.image held.new.file) }
    ensures past { F.past held.new.file ≡ F.past held.old.file }
{
    if held.was_synced {
        return held.file.sync_bytes();
    }
    held.file.sync_whole()?;
    held.was_synced = true;
    Ok(())
}

/// Syncs the bytes and the length. The first sync that succeeds answers for what others did before the file was opened, and
/// syncs all that the file has. Before it comes the folder, where a crash may still lose the file's name: if the folder
/// cannot be synced, nothing of the file is. From then on it is enough to sync the data: POSIX has it that `fdatasync` also
/// writes what is needed to read the data again, the length among it.
pub(crate) fn sync<R: StoreFiles>(files: &R, path: &str, held: &mut Held<R::File>) -> io::Result<()>
    ensures contents { R.File.contents held.new.file ≡ R.File.contents held.old.file }
    ensures only { OnOk result (IfTold (R.File.contents held.old.file) (λ bytes. (left : List ℕ)
        → R.File.image held.new.file left → left ≡ bytes)) }
    ensures no_more { (bytes : List ℕ) → R.File.image held.new.file bytes → R.File.image held.old.file bytes }
    ensures failed { OnErr result (SameImages (R.File.image held.old.file) (R.File.image held.new.file)) }
    ensures time { Ticks (R.File.since held.old.file) (R.File.since held.new.file) (R.File.image held.new.file) }
    ensures past { R.File.past held.new.file ≡ R.File.past held.old.file }
{
    keep_name(files, path, held)?;
    sync_file(held)
}
