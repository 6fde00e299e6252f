ghost use Rattle.std.specs.Prelude.{◌≡◌, ◌^◌, ◌<◌, ℕ, Bool, true, false, List, [], Option, Some, length, IfOk, OnOk, OnErr};
ghost use Rattle.pm_disk.specs.Images.{IsBytes};
ghost use Rattle.pm_disk.specs.Disk.{SameImages};
ghost use Rattle.pm_file.specs.Calls.{SameEach, Ticks};
ghost use Rattle.pm_file.specs.Standing.{with_name, to_read, to_store, IsFolder};
ghost use Rattle.pm_file.specs.Streams.{IsApart};
ghost use Rattle.pm_file.specs.Untold.{untold, not_told, untold_short};

use crate::StoreFile;
use std::fs::{File, OpenOptions};
use std::io;

const NULL: &str = "/dev/null";

/// What a store asks of the files of a system. It may tell what lies at a path; the real one tells nothing.
pub trait StoreFiles {
    type File: StoreFile;

    /// The bytes of the file of a path, where they are told; a missing file has none.
    ghost lies: { Self → List ℕ → Option (List ℕ) };

    /// What a crash may leave of the file of a path, which may be nothing.
    ghost leaves: { Self → List ℕ → List ℕ → Type 0 };

    /// None of the three standard streams is closed.
    ghost filled: { Self → Bool };

    /// Opens the null device. It takes the lowest free descriptor.
    fn open_null(&mut self, how: &OpenOptions) -> io::Result<Self::File>
        requires { how.now ≡ to_read }
        ensures filled { IfOk result (λ null. IsApart (Self.File.raw_fd null) → filled self.new ≡ true) }
        ensures lies { lies self.new ≡ lies self.old }
        ensures leaves { SameEach (leaves self.old) (leaves self.new) };

    /// Opens the file of a path, which holds what lies there. It is asked for once no standard stream is closed.
    fn open_store(&self, how: &OpenOptions, path: &str) -> io::Result<Self::File>
        requires filled { filled self.now ≡ true }
        requires how { how.now ≡ to_store }
        ensures contents { IfOk result (λ file. Self.File.contents file ≡ lies self.now path.now) }
        ensures images { IfOk result (λ file. SameImages (leaves self.now path.now) (Self.File.image file)) }
        ensures since { IfOk result (λ file. (calls : ℕ) → SameImages (leaves self.now path.now)
            (Self.File.since file calls)) }
        ensures past { IfOk result (λ file. Self.File.past file ≡ 0) }
        ensures number { IfOk result (λ file. (Self.File.standing file).descriptor ≡ Self.File.raw_fd file) }

        // Only the name of a file without a byte may be lost.
        ensures empty { IfOk result (λ file. (Self.File.standing file).named ≡ false →
            Self.File.contents file ≡ Some []) };

    /// Syncs the folder of a path, so that a crash does not lose the name of the file, which was opened by that path. A
    /// crash leaves of the file what it might have left before, until its next sync. If it succeeds it counts as one call
    /// with that sync, and by itself otherwise.
    fn sync_names(&self, path: &str, folder: &str, file: &mut Self::File) -> io::Result<()>
        requires { IsFolder path.now folder.now }
        ensures named { OnOk result (Self.File.standing file.new ≡ with_name (Self.File.standing file.old)) }
        ensures stays { OnErr result (Self.File.standing file.new ≡ Self.File.standing file.old) }
        ensures contents { Self.File.contents file.new ≡ Self.File.contents file.old }
        ensures images { SameImages (Self.File.image file.old) (Self.File.image file.new) }
        ensures since { OnOk result (SameEach (Self.File.since file.old) (Self.File.since file.new)) }
        ensures time { OnErr result (Ticks (Self.File.since file.old) (Self.File.since file.new)
            (Self.File.image file.new)) }
        ensures past { Self.File.past file.new ≡ Self.File.past file.old };

    /// A file has a length below 2^63.
    ghost short: { (files : Self) (path bytes : List ℕ) → lies files path ≡ Some bytes → length bytes < 2 ^ 63 };

    /// A crash may leave what lies there.
    ghost lying_stays: { (files : Self) (path bytes : List ℕ) → lies files path ≡ Some bytes → leaves files path bytes };

    /// A crash leaves bytes.
    ghost left_bytes: { (files : Self) (path bytes : List ℕ) → leaves files path bytes → IsBytes bytes };
}

impl StoreFiles for HostRuntime {
    type File = File;

    ghost lies = { λ _ _. untold };

    ghost leaves = { λ _ _. IsBytes };

    ghost filled = { λ _. true };

    ghost short = { λ files path bytes told. untold_short bytes told };

    ghost lying_stays = { λ files path bytes told. not_told bytes told };

    ghost left_bytes = { λ files path bytes is. is };

    fn open_null(&mut self, how: &OpenOptions) -> io::Result<File> {
        how.open(self, NULL)
    }

    fn open_store(&self, how: &OpenOptions, path: &str) -> io::Result<File> {
        how.open(self, path)
    }

    fn sync_names(&self, _path: &str, folder: &str, _file: &mut File) -> io::Result<()> {
        OpenOptions::new().read(true).open(self, folder)?.sync_all()
    }
}
