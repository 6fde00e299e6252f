//! The parts of the program that have cases, and the whole of it.

use crate::case::Case;
use pm_case_text::{Fault, first_word, is_silent, push_words, refuse};
use std::sync::Wait;
use std::thread::Threads;

/// Whose steps the lines are.
#[derive(Clone, Copy)]
pub(crate) enum Part {
    /// Values, scripts that are parted, and dumps that are read.
    Values,
    /// The containers of the heap.
    Containers,
    /// Bytes, pages, disks and streams.
    Disks,
    /// A file as a disk.
    Files,
    /// The space in memory.
    Space,
    /// The engine, and a standby.
    Engine,
    /// The engine with a nursery.
    Young,
    /// Turns of a book.
    Lock,
    /// Workers that meet.
    Meeting,
    /// The whole program.
    Program,
}

// The part of this name.
fn part_of(name: &str) -> Result<Part, Fault> {
    match name {
        "values" => Ok(Part::Values),
        "containers" => Ok(Part::Containers),
        "disks" => Ok(Part::Disks),
        "files" => Ok(Part::Files),
        "space" => Ok(Part::Space),
        "engine" => Ok(Part::Engine),
        "young" => Ok(Part::Young),
        "lock" => Ok(Part::Lock),
        "meeting" => Ok(Part::Meeting),
        "program" => Ok(Part::Program),
        _ => Err(refuse("no such part")),
    }
}

// Adds the line with which a part begins.
fn push_part(name: &str, out: &mut String) -> Result<(), Fault> {
    push_words("part ", out)?;
    push_words(name, out)?;
    push_words("\n", out)
}

/// What the case of each part has come to that keeps something from line to line, and whose steps the lines are.
#[derive(Drop)]
pub(crate) struct Cases {
    now: Option<Part>,
    disks: pm_disk_cases::Case,
    files: pm_disk_cases::file_cases::Case,
    engine: pm_engine_cases::Case,
    young: pm_young_cases::Case,
    program: Case,
}

impl Cases {
    /// Cases that have just begun, and no part yet.
    pub(crate) fn new(rt: HostRuntime) -> Result<Cases, Fault> {
        let alloc = rt.alloc();
        Ok(Cases {
            now: None,
            disks: pm_disk_cases::Case::new(alloc),
            files: pm_disk_cases::file_cases::Case::new(rt),
            engine: pm_engine_cases::Case::new(alloc)?,
            young: pm_young_cases::Case::new(alloc)?,
            program: Case::new(alloc)?,
        })
    }

    // Begins the part of this name.
    fn begin(&mut self, name: &str, out: &mut String) -> Result<(), Fault> {
        self.now = Some(part_of(name)?);
        push_part(name, out)
    }

    // Hands a line to this part.
    fn take_of<R: AllocGlobal + Threads + Wait + Sync>(
        &mut self,
        rt: &R,
        part: Part,
        line: &str,
        out: &mut String,
    ) -> Result<(), Fault> {
        let alloc = rt.alloc();
        match part {
            Part::Values => pm_value_cases::take(alloc, line, out),
            Part::Containers => pm_value_cases::containers::take(alloc, line, out),
            Part::Disks => self.disks.take(alloc, line, out),
            Part::Files => self.files.take(line, out),
            Part::Space => pm_space_cases::take(alloc, line, out),
            Part::Engine => self.engine.take(alloc, line, out),
            Part::Young => self.young.take(alloc, line, out),
            Part::Lock => pm_lock_cases::take(rt, alloc, line, out),
            Part::Meeting => pm_case_runs::meeting_cases::take(rt, line, out),
            Part::Program => self.program.take(rt, line, out),
        }
    }

    // Hands a line to the part that was named last.
    fn hand<R: AllocGlobal + Threads + Wait + Sync>(
        &mut self,
        rt: &R,
        line: &str,
        out: &mut String,
    ) -> Result<(), Fault> {
        match self.now {
            Some(part) => self.take_of(rt, part, line, out),
            None => Err(refuse("no part")),
        }
    }

    /// Takes a line of the input, and adds what it gives: it names a part, or is of the part that was named last. A line
    /// that begins with `#`, and one that is empty, say nothing.
    pub(crate) fn take<R: AllocGlobal + Threads + Wait + Sync>(
        &mut self,
        rt: &R,
        line: &str,
        out: &mut String,
    ) -> Result<(), Fault> {
        if is_silent(line) {
            return Ok(());
        }
        let (word, name) = first_word(line);
        if word == "part" {
            return self.begin(name, out);
        }
        self.hand(rt, line, out)
    }
}
