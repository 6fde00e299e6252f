//! With what a run begins, beside the disk's bytes.

use crate::told::calls::{call_number, call_numbers};
use crate::told::drawn_lines::generated;
use crate::{Fault, counted, number, numbered, push_lines, raw_bytes};
use std::alloc::Global;
use std::mem;

/// The words of a run.
pub const RUN: &str = "run store.pmos serial";

/// The words of a run in threads.
pub const RUN_THREADS: &str = "run store.pmos threads";

/// The words that dump a store.
pub const DUMP: &str = "dump store.pmos";

/// The words that make a store of a dump.
pub const RESTORE: &str = "restore store.pmos";

/// The words that make a store.
pub const INIT: &str = "init store.pmos";

// How many bytes the source gives at most in one call, where no step says it.
const PIECE: usize = 4;

/// With what a run begins, beside the disk's bytes.
#[derive(Drop)]
pub struct Setting {
    /// The words of the command line, with a space between each two.
    pub words: String,
    /// What the source holds.
    pub script: Vec<u8>,
    /// How many bytes the source gives at most in one call.
    pub piece: usize,
    /// How many calls the disk passes on, before it fails each one.
    pub passes: u64,
    /// The bytes of the other disk.
    pub other: Vec<u8>,
    /// How many calls that one passes on.
    pub other_passes: u64,
    /// Which calls fail, by their numbers from 1.
    pub disk_fails: Vec<u64>,
    pub source_fails: Vec<u64>,
    pub sink_fails: Vec<u64>,
}

// Adds bytes.
fn push_raw(script: &mut Vec<u8>, bytes: &[u8]) -> Result<(), Fault> {
    Ok(script.extend_from_slice(bytes)?)
}

impl Setting {
    // These words and this script, with pieces of this many bytes and these bytes on the other disk; nothing fails.
    fn of(alloc: Global, words: String, script: Vec<u8>, piece: usize, other: Vec<u8>) -> Setting {
        Setting {
            words,
            script,
            piece,
            passes: u64::MAX,
            other,
            other_passes: u64::MAX,
            disk_fails: Vec::new(alloc),
            source_fails: Vec::new(alloc),
            sink_fails: Vec::new(alloc),
        }
    }

    /// These words and this script, nothing that fails, pieces of 4 bytes, and no byte on the other disk.
    pub fn with_script(alloc: Global, words: &str, script: &[u8]) -> Result<Setting, Fault> {
        let words = String::from_str(alloc, words)?;
        let script = script.to_vec(alloc)?;
        Ok(Setting::of(alloc, words, script, PIECE, Vec::new(alloc)))
    }

    /// The same with the words of a run, and no script.
    pub fn new(alloc: Global) -> Result<Setting, Fault> {
        Setting::with_script(alloc, RUN, &[])
    }

    /// The same words, script, pieces and other disk, and nothing that fails.
    pub fn again(&self, alloc: Global) -> Result<Setting, Fault> {
        let mut setting = Setting::with_script(alloc, self.words.as_str(), self.script.as_slice())?;
        setting.other = self.other.to_vec(alloc)?;
        setting.piece = self.piece;
        Ok(setting)
    }

    /// What was said so far, with these lines behind the script and these bytes on the other disk; nothing is said of the
    /// next run.
    pub fn take(&mut self, alloc: Global, lines: &str, other: &[u8]) -> Result<Setting, Fault> {
        push_lines(&mut self.script, lines)?;
        self.other = other.to_vec(alloc)?;
        let next = Setting::new(alloc)?;
        Ok(mem::replace(self, next))
    }

    /// The words of the next run.
    pub fn set_words(&mut self, alloc: Global, text: &str) -> Result<(), Fault> {
        self.words = String::from_str(alloc, text)?;
        Ok(())
    }

    /// `N`, or `+N` behind so many calls. For `pieces` it is how many bytes the source of the next run gives at most, for
    /// `fuse` how many calls the disk passes on, and else how many the other disk does.
    pub fn set_number(&mut self, what: &str, text: &str, opening: u64) -> Result<(), Fault> {
        let number = call_number(text, opening)?;
        match what {
            "pieces" => self.piece = number as usize,
            "fuse" => self.passes = number,
            _ => self.other_passes = number,
        }
        Ok(())
    }

    /// The calls of the source, the sink, or else the disk that fail in the next run.
    pub fn set_fails(&mut self, part: &str, calls: Vec<u64>) {
        match part {
            "source" | "source-fails" => self.source_fails = calls,
            "sink" | "sink-fails" => self.sink_fails = calls,
            _ => self.disk_fails = calls,
        }
    }

    /// `N ..`, or `+N` behind so many calls: the same, where the numbers are spelled.
    pub fn read_fails(
        &mut self,
        alloc: Global,
        part: &str,
        text: &str,
        opening: u64,
    ) -> Result<(), Fault> {
        let calls = call_numbers(alloc, text, opening)?;
        self.set_fails(part, calls);
        Ok(())
    }

    // Adds lines, with the number of this time in place of `%`.
    fn push_time(&mut self, alloc: Global, lines: &str, time: u64) -> Result<(), Fault> {
        let counted = counted(alloc, lines, time)?;
        push_lines(&mut self.script, counted.as_str())
    }

    /// `N LINES`: adds the lines N times, each time with its number, from 0, in place of `%`.
    pub fn push_times(&mut self, alloc: Global, text: &str) -> Result<(), Fault> {
        let (times, lines) = numbered(text)?;
        for time in 0..times {
            self.push_time(alloc, lines, time)?;
        }
        Ok(())
    }

    /// Adds bytes that are spelled in hexadecimal.
    pub fn push_bytes(&mut self, alloc: Global, text: &str) -> Result<(), Fault> {
        let raw = raw_bytes(alloc, text)?;
        push_raw(&mut self.script, raw.as_slice())
    }

    /// `N`: adds so many lines that are drawn.
    pub fn push_drawn(&mut self, alloc: Global, text: &str) -> Result<(), Fault> {
        let drawn = generated(alloc, number(text)?, 1)?;
        push_raw(&mut self.script, drawn.as_bytes())
    }
}
