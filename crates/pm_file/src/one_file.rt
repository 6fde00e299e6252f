ghost use Rattle.std.specs.Prelude.{◌≡◌, IfOk, string_bytes};

use crate::{FileDisk, StoreFiles};
use pm_disk::Disk;
use pm_types::NoMemory;
use std::alloc::Global;

/// The leave to open one file as a disk. It is given up for that disk, so who has one has one disk at most.
#[derive(Drop)]
pub struct OneFile<R: StoreFiles> {
    rt: R,
}

impl<R: StoreFiles + Drop> OneFile<R> {
    ghost use Rattle.std.specs.Prelude.{◌≡◌, IfOk, string_bytes};

    /// The leave to open one file of these files.
    pub fn new(rt: R) -> OneFile<R> {
        OneFile { rt }
    }

    /// The disk that the file of this path is, as by `FileDisk::at`. It touches nothing.
    pub fn named(self, alloc: Global, path: &str) -> Result<FileDisk<R>, NoMemory>
        ensures count { IfOk result (λ disk. ⟦<FileDisk<R> as Disk>⟧.count disk ≡ 0) }
        ensures uncalled { IfOk result (λ disk. ⟦<FileDisk<R> as Disk>⟧.moment disk ≡ 0) }
        ensures path { IfOk result (λ disk. string_bytes disk.path ≡ path.now) }
    {
        FileDisk::at(self.rt, alloc, path)
    }
}
