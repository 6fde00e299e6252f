ghost use Rattle.std.specs.Prelude.{None};
ghost use Rattle.pm_disk.specs.Images.{IsBytes};
ghost use Rattle.pm_file.specs.Standing.{untold_standing};
ghost use Rattle.pm_file.specs.Untold.{untold, not_told};

use crate::file_cases::system::System;
use pm_file::StoreFile;
use std::io;
use std::os::fd::{AsRawFd, IntoRawFd, RawFd};

/// The system's file, open. Its descriptor is closed as it is dropped.
pub(crate) struct FakeFile<'a> {
    pub(crate) system: &'a System,
    pub(crate) number: RawFd,
}

impl<'a> Drop for FakeFile<'a> {
    fn drop(self) {
        let FakeFile { system, number } = self;
        system.give_number(number.cast_unsigned());
    }
}

impl<'a> AsRawFd for FakeFile<'a> {
    fn as_raw_fd(&self) -> RawFd {
        self.number
    }
}

impl<'a> IntoRawFd for FakeFile<'a> {
    fn into_raw_fd(self) -> RawFd {
        let FakeFile { system: _, number } = self;
        number
    }
}

impl<'a> StoreFile for FakeFile<'a> {
    ghost contents = { λ _. untold };

    ghost image = { λ _. IsBytes };

    ghost since = { λ _ _. IsBytes };

    ghost past = { λ _. 0 };

    ghost standing = { λ _. untold_standing None };

    ghost counts_now = { λ file calls bytes is. is };

    ghost only_now = { λ file bytes is. is };

    ghost earlier = { λ file more fewer bytes le is. is };

    ghost contents_stay = { λ file bytes told. not_told bytes told };

    ghost leaves_bytes = { λ file calls bytes is. is };

    fn claim(&mut self) -> io::Result<()> {
        self.system.ask("lock", self.number)
    }

    fn measure(&mut self) -> io::Result<u64> {
        self.system.ask("len", self.number)?;
        self.system.len()
    }

    fn read_from(&mut self, at: u64, into: &mut [u8]) -> io::Result<()> {
        self.system.ask_at("read", self.number, at, into.len())?;
        self.system.read(at, into)
    }

    fn write_over(&mut self, at: u64, from: &[u8]) -> io::Result<()> {
        self.system.ask_at("write", self.number, at, from.len())?;
        self.system.write(at, from)
    }

    fn sync_whole(&mut self) -> io::Result<()> {
        self.system.ask("sync", self.number)
    }

    fn sync_bytes(&mut self) -> io::Result<()> {
        self.system.ask("data", self.number)
    }
}
