//! A case: its steps, one a line.

use crate::chosen::{Chosen, read_chosen};
use crate::spelling::{push_bytes_at, push_last, script};
use crate::standby::{push_ship, push_ships};
use crate::stopping::{Run, opening, push_calls, push_over, push_stops};
use pm_case_text::{
    Count, Fault, first_word, is_silent, number, numbered, patch, push_case, refuse, written_out,
};
use pm_disk::MemDisk;
use pm_script::{Line, Script};
use pm_shadow::init;
use std::alloc::Global;
use std::mem;

/// What a case has come to.
#[derive(Drop)]
pub struct Case {
    /// The bytes that the next run finds on the disk.
    disk: Vec<u8>,
    /// Those of the other disk.
    other: Vec<u8>,
    /// With what each image is looked at.
    look: Script,
    /// Behind so many lines of a run each time the engine lets its entries go; never, for 0.
    forget: u64,
    /// Which train an object moves to.
    chosen: Chosen,
}

// The bytes of a store that has just been made.
fn new_store(alloc: Global) -> Result<Vec<u8>, Fault> {
    let mut disk = MemDisk::new(Vec::new(alloc), Vec::new(alloc));
    match init(alloc, &mut disk) {
        Ok(()) => Ok(disk.contents().to_vec(alloc)?),
        Err(_) => Err(refuse("no memory")),
    }
}

impl Case {
    /// A case that has just begun: a new store on either disk, no look, nothing is let go, and the first train is chosen.
    pub fn new(alloc: Global) -> Result<Case, Fault> {
        Ok(Case {
            disk: new_store(alloc)?,
            other: new_store(alloc)?,
            look: script(alloc, "")?,
            forget: 0,
            chosen: Chosen::First,
        })
    }

    // What these lines are run on.
    fn run_of<'a>(&'a self, lines: &'a [Line]) -> Run<'a> {
        Run {
            disk: self.disk.as_slice(),
            lines,
            look: self.look.as_slice(),
            forget: self.forget,
            chosen: self.chosen,
        }
    }

    // Runs the lines; the disk is what the run leaves.
    fn go(&mut self, alloc: Global, text: &str, out: &mut String) -> Result<MemDisk, Fault> {
        let lines = script(alloc, text)?;
        let disk = push_over(alloc, &self.run_of(lines.as_slice()), 0, false, out)?;
        self.disk = disk.contents().to_vec(alloc)?;
        Ok(disk)
    }

    // Runs the lines, and adds what the engine came to; the disk stays as it was.
    fn go_to_tally(&self, alloc: Global, text: &str, out: &mut String) -> Result<(), Fault> {
        let lines = script(alloc, text)?;
        push_over(alloc, &self.run_of(lines.as_slice()), 0, true, out)?;
        Ok(())
    }

    // Runs the lines behind a number, and adds that many of the last answers.
    fn go_and_push_last(
        &mut self,
        alloc: Global,
        text: &str,
        out: &mut String,
    ) -> Result<(), Fault> {
        let (count, lines) = numbered(text)?;
        let mut whole = String::new(alloc);
        self.go(alloc, lines, &mut whole)?;
        push_last(whole.as_str(), count, out)
    }

    // The train that is chosen is the one of this name.
    fn choose(&mut self, text: &str) -> Result<(), Fault> {
        self.chosen = read_chosen(text)?;
        Ok(())
    }

    // The engine lets its entries go behind so many lines each time.
    fn set_forget(&mut self, text: &str) -> Result<(), Fault> {
        self.forget = number(text)?;
        Ok(())
    }

    // The store of the disk is shipped to that of the other one, which is what the ship leaves.
    fn ship(&mut self, alloc: Global, out: &mut String) -> Result<(), Fault> {
        let standby = push_ship(alloc, &self.disk, &self.other, out)?;
        self.other = standby.contents().to_vec(alloc)?;
        Ok(())
    }

    // A step that opens no store by an engine.
    fn disk_step(
        &mut self,
        alloc: Global,
        step: &str,
        text: &str,
        out: &mut String,
    ) -> Result<(), Fault> {
        match step {
            "at" => push_bytes_at(alloc, &self.disk, text, out),
            "place" => self.choose(text),
            "forget" => self.set_forget(text),
            "patch" => patch(alloc, self.disk.as_mut_slice(), text),
            "other" => {
                mem::swap(&mut self.disk, &mut self.other);
                Ok(())
            }
            "ship" => self.ship(alloc, out),
            "ships" => push_ships(alloc, &self.disk, &self.other, self.look.as_slice(), out),
            _ => Err(refuse("no such step")),
        }
    }

    // Begins the case of this name.
    fn begin(&mut self, alloc: Global, name: &str, out: &mut String) -> Result<(), Fault> {
        *self = Case::new(alloc)?;
        push_case(name, out)
    }

    // Runs the lines, and adds what that gives, a line.
    fn run(&mut self, alloc: Global, text: &str, out: &mut String) -> Result<(), Fault> {
        self.go(alloc, text, out)?;
        Ok(())
    }

    // Runs the lines, and prints nothing.
    fn run_unseen(&mut self, alloc: Global, text: &str) -> Result<(), Fault> {
        let mut unseen = String::new(alloc);
        self.run(alloc, text, &mut unseen)
    }

    // Runs the lines, and adds the calls of the disk after those of the opening too.
    fn go_and_push_calls(
        &mut self,
        alloc: Global,
        text: &str,
        out: &mut String,
    ) -> Result<(), Fault> {
        let first = opening(alloc, &self.disk)?;
        let disk = self.go(alloc, text, out)?;
        push_calls(&disk, first, out)
    }

    // With these lines each image is looked at.
    fn set_look(&mut self, alloc: Global, text: &str) -> Result<(), Fault> {
        self.look = script(alloc, text)?;
        Ok(())
    }

    // Runs the lines so that they stop at each call, or each one fails.
    fn stop(&self, alloc: Global, step: &str, text: &str, out: &mut String) -> Result<(), Fault> {
        let lines = script(alloc, text)?;
        push_stops(alloc, step, &self.run_of(lines.as_slice()), out)
    }

    // A step: its first word, and what follows.
    fn step(
        &mut self,
        alloc: Global,
        step: &str,
        text: &str,
        out: &mut String,
    ) -> Result<(), Fault> {
        match step {
            "case" => self.begin(alloc, text, out),
            "do" => self.run_unseen(alloc, text),
            "run" => self.run(alloc, text, out),
            "last" => self.go_and_push_last(alloc, text, out),
            "calls" => self.go_and_push_calls(alloc, text, out),
            "tally" => self.go_to_tally(alloc, text, out),
            "look" => self.set_look(alloc, text),
            "fails" | "fuses" | "stops" => self.stop(alloc, step, text, out),
            _ => self.disk_step(alloc, step, text, out),
        }
    }

    /// Takes a line of the input, and adds what it gives. A line that begins with `#`, and one that is empty, say
    /// nothing.
    pub fn take(&mut self, alloc: Global, line: &str, out: &mut String) -> Result<(), Fault> {
        if is_silent(line) {
            return Ok(());
        }
        let line = written_out(alloc, line, Count::FromZero)?;
        let (step, text) = first_word(line.as_str());
        self.step(alloc, step, text, out)
    }
}
