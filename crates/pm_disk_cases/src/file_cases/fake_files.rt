ghost use Rattle.std.specs.Prelude.{true};
ghost use Rattle.pm_disk.specs.Images.{IsBytes};
ghost use Rattle.pm_file.specs.Untold.{untold, not_told, untold_short};

use crate::file_cases::fake_file::FakeFile;
use crate::file_cases::system::System;
use pm_file::{StoreFile, StoreFiles};
use std::fs::OpenOptions;
use std::io;

/// Gives the system's file, by whatever name, as files of the operating system.
#[derive(Clone, Copy)]
pub(crate) struct FakeFiles<'a> {
    pub(crate) system: &'a System,
}

// How a file is opened: it may be read, written, made, and cut or only added to.
const HOWS: [&str; 16] = [
    "", "r", "w", "rw", "c", "rc", "wc", "rwc", "!", "r!", "w!", "rw!", "c!", "rc!", "wc!", "rwc!",
];

// A number, or 0 where nothing is asked.
fn only(asked: bool, number: usize) -> usize {
    if asked { number } else { 0 }
}

// How a file is opened, in letters.
fn letters(how: &OpenOptions) -> &'static str {
    let place = only(how.asks_read(), 1)
        | only(how.asks_write(), 2)
        | only(how.asks_create(), 4)
        | only(how.asks_truncate() || how.asks_append(), 8);
    HOWS.get(place).copied().unwrap_or("")
}

impl<'a> FakeFiles<'a> {
    // Opens a file, and gives it the lowest free descriptor.
    fn open(&self, how: &OpenOptions, path: &str) -> io::Result<FakeFile<'a>> {
        self.system.ask_open(path, letters(how))?;
        Ok(FakeFile {
            system: self.system,
            number: self.system.take_number().cast_signed(),
        })
    }
}

impl<'a> StoreFiles for FakeFiles<'a> {
    type File = FakeFile<'a>;

    ghost lies = { λ _ _. untold };

    ghost leaves = { λ _ _. IsBytes };

    ghost filled = { λ _. true };

    ghost short = { λ files path bytes told. untold_short bytes told };

    ghost lying_stays = { λ files path bytes told. not_told bytes told };

    ghost left_bytes = { λ files path bytes is. is };

    fn open_null(&mut self, how: &OpenOptions) -> io::Result<FakeFile<'a>> {
        self.open(how, "/dev/null")
    }

    fn open_store(&self, how: &OpenOptions, path: &str) -> io::Result<FakeFile<'a>> {
        if how.asks_truncate() {
            self.system.cut()?;
        }
        self.open(how, path)
    }

    fn sync_names(&self, _path: &str, folder: &str, _file: &mut FakeFile<'a>) -> io::Result<()> {
        self.open(OpenOptions::new().read(true), folder)?
            .sync_whole()
    }
}
