//! How the file of a store is opened: apart from the standard streams, and for one process at a time.
ghost use Rattle.std.specs.Prelude.{◌≡◌, ℕ, true, false, IfOk, OnOk};
ghost use Rattle.pm_disk.specs.Disk.{SameImages};
ghost use Rattle.pm_file.specs.Calls.{SameEach};
ghost use Rattle.pm_file.specs.Standing.{to_read, to_store};
ghost use Rattle.pm_file.specs.Streams.{IsApart};

use crate::{StoreFile, StoreFiles};
use std::fs::OpenOptions;
use std::io;
use std::os::fd::{AsRawFd, IntoRawFd};

/// The standard streams have the descriptors 0, 1 and 2.
const LAST_STREAM: i32 = 2;

/// The file of a store, open and locked. Its descriptor is that of no standard stream.
#[derive(Drop)]
pub(crate) struct Held<F: StoreFile> {
    pub(crate) file: F,
    /// A crash may lose the name of the file, since no sync of its folder is known.
    pub(crate) may_lose_name: bool,
    /// A sync of all that the file has has succeeded since it was opened.
    pub(crate) was_synced: bool,
    ghost apart: { IsApart (F.standing file).descriptor },
    ghost locked: { (F.standing file).locked ≡ true },
    ghost named: { may_lose_name ≡ false → (F.standing file).named ≡ true },
    ghost whole: { was_synced ≡ true → (F.standing file).whole ≡ true },
}

fn taken() -> io::Error {
    io::Error::other("a descriptor of a standard stream was given to a file")
}

/// The options that read a file and do nothing else.
fn reading() -> OpenOptions
    ensures { result ≡ to_read }
{
    let mut how = OpenOptions::new();
    how.read(true);
    how
}

/// The options that open the file of a store: to read and to write, made where it is missing, and never cut.
fn storing() -> OpenOptions
    ensures { result ≡ to_store }
{
    let mut how = OpenOptions::new();
    how.read(true).write(true).create(true);
    how
}

// Opens the null device, which takes the lowest free descriptor. If that is one of a standard stream, it stays open until
// the process ends. Whether no stream was closed any more.
fn fill_one<R: StoreFiles>(files: &mut R) -> io::Result<bool>
    ensures filled { IfOk result (λ apart. apart ≡ true → R.filled files.new ≡ true) }
    ensures lies { R.lies files.new ≡ R.lies files.old }
    ensures leaves { SameEach (R.leaves files.old) (R.leaves files.new) }
{
    let null = files.open_null(&reading())?;
    if null.as_raw_fd() > LAST_STREAM {
        return Ok(true);
    }
    let _ = null.into_raw_fd();
    Ok(false)
}

// Opens the null device in place of each standard stream that is closed, since a file that is opened takes the lowest
// free descriptor. It is opened to be read, so that what reads it finds the end, and what writes to it fails.
fn fill_streams<R: StoreFiles>(files: &mut R) -> io::Result<()>
    ensures filled { OnOk result (R.filled files.new ≡ true) }
    ensures lies { R.lies files.new ≡ R.lies files.old }
    ensures leaves { SameEach (R.leaves files.old) (R.leaves files.new) }
{
    // Three at most are closed.
    if fill_one(files)? || fill_one(files)? || fill_one(files)? || fill_one(files)? {
        Ok(())
    } else {
        Err(taken())
    }
}

/// Opens the file for reading and writing, makes it where it is missing, and locks it. Where one of these cannot be
/// had, or the standard streams that are closed cannot be filled, it fails.
pub(crate) fn hold<R: StoreFiles>(files: &mut R, path: &str) -> io::Result<Held<R::File>>
    ensures lies { R.lies files.new ≡ R.lies files.old }
    ensures leaves { SameEach (R.leaves files.old) (R.leaves files.new) }
    ensures contents { IfOk result (λ held. R.File.contents held.file ≡ R.lies files.old path.now) }
    ensures images { IfOk result (λ held. SameImages (R.leaves files.old path.now) (R.File.image held.file)) }
    ensures since { IfOk result (λ held. (calls : ℕ) → SameImages (R.leaves files.old path.now)
        (R.File.since held.file calls)) }
    ensures past { IfOk result (λ held. R.File.past held.file ≡ 0) }
{
    fill_streams(files)?;
    let mut file = files.open_store(&storing(), path)?;
    if file.as_raw_fd() <= LAST_STREAM {
        return Err(taken());
    }
    file.claim()?;
    let may_lose_name = file.measure()? == 0;
    Ok(Held {
        file,
        may_lose_name,
        was_synced: false,
    })
}
