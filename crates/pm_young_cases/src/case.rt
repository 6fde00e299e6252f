//! A case: its steps, one a line.

use crate::beside::push_drawn_beside;
use crate::commands::young_script;
use crate::failing::{Run, push_failings, push_over};
use crate::lines::push_run;
use crate::store::{put_digest, store_of};
use crate::texts::{push_failing_sinks, push_swept, push_written};
use pm_case_text::{
    Count, Fault, first_word, is_silent, numbered, patch, push_case, push_words, refuse,
    written_out,
};
use pm_script::YoungScript;
use std::alloc::Global;

/// What a case has come to.
#[derive(Drop)]
pub struct Case {
    /// The bytes of the store.
    disk: Vec<u8>,
    /// With what each image is looked at.
    look: YoungScript,
}

// Adds a part of a text, with a stroke before it where it is not the first one.
fn push_part(part: &str, is_first: bool, out: &mut String) -> Result<(), Fault> {
    push_words(if is_first { "" } else { " / " }, out)?;
    push_words(part, out)
}

// Adds the parts of a text between ` / ` behind the first ones, of which so many are passed over.
fn push_behind(text: &str, passed: usize, out: &mut String) -> Result<(), Fault> {
    for (place, part) in text.split(" / ").enumerate() {
        if place >= passed {
            push_part(part, place == passed, out)?;
        }
    }
    Ok(())
}

// Adds the last ones of what ` / ` stands between in a text, this number at most.
fn push_last(text: &str, count: u64, out: &mut String) -> Result<(), Fault> {
    let parts = text.split(" / ").count();
    push_behind(text, parts.saturating_sub(count as usize), out)
}

impl Case {
    /// A case that has just begun: a new store.
    pub fn new(alloc: Global) -> Result<Case, Fault> {
        Ok(Case {
            disk: store_of(alloc, "")?,
            look: young_script(alloc, "")?,
        })
    }

    // Begins the case of this name.
    fn begin(&mut self, alloc: Global, name: &str, out: &mut String) -> Result<(), Fault> {
        *self = Case::new(alloc)?;
        push_case(name, out)
    }

    // The store is a new one, once these lines were run over it.
    fn store(&mut self, alloc: Global, text: &str) -> Result<(), Fault> {
        self.disk = store_of(alloc, text)?;
        Ok(())
    }

    // With these lines each image is looked at.
    fn set_look(&mut self, alloc: Global, text: &str) -> Result<(), Fault> {
        self.look = young_script(alloc, text)?;
        Ok(())
    }

    // Runs the lines of a script; the store is what that leaves.
    fn script(&mut self, alloc: Global, text: &str, out: &mut String) -> Result<(), Fault> {
        let lines = young_script(alloc, text)?;
        let run = Run {
            disk: self.disk.as_slice(),
            lines: lines.as_slice(),
            look: &[],
        };
        let disk = push_over(alloc, &run, 0, out)?;
        self.disk = disk.contents().to_vec(alloc)?;
        Ok(())
    }

    // Runs the lines of a script behind a number, and adds so many of the last parts of what that gives.
    fn script_last(&mut self, alloc: Global, text: &str, out: &mut String) -> Result<(), Fault> {
        let (count, lines) = numbered(text)?;
        let mut whole = String::new(alloc);
        self.script(alloc, lines, &mut whole)?;
        push_last(whole.as_str(), count, out)
    }

    // Runs the lines so that each call of the disk fails in turn.
    fn fail(&self, alloc: Global, text: &str, out: &mut String) -> Result<(), Fault> {
        let lines = young_script(alloc, text)?;
        let run = Run {
            disk: self.disk.as_slice(),
            lines: lines.as_slice(),
            look: self.look.as_slice(),
        };
        push_failings(alloc, &run, out)
    }

    // A step: its first word, and what follows.
    fn step(
        &mut self,
        alloc: Global,
        step: &str,
        text: &str,
        out: &mut String,
    ) -> Result<(), Fault> {
        match step {
            "case" => self.begin(alloc, text, out),
            "store" => self.store(alloc, text),
            "patch" => patch(alloc, self.disk.as_mut_slice(), text),
            "digest" => put_digest(self.disk.as_mut_slice(), text),
            "script" => self.script(alloc, text, out),
            "last" => self.script_last(alloc, text, out),
            "look" => self.set_look(alloc, text),
            "fails" => self.fail(alloc, text, out),
            "drawn" => push_drawn_beside(alloc, text, out),
            "run" => push_run(alloc, self.disk.as_slice(), text, false, out),
            "ends" => push_run(alloc, self.disk.as_slice(), text, true, out),
            "writes" => push_written(alloc, self.disk.as_slice(), text, out),
            "sinks" => push_failing_sinks(alloc, self.disk.as_slice(), text, out),
            "swept" => push_swept(alloc, self.disk.as_slice(), text, out),
            _ => Err(refuse("no such step")),
        }
    }

    /// Takes a line of the input, and adds what it gives. A line that begins with `#`, and one that is empty, say
    /// nothing.
    pub fn take(&mut self, alloc: Global, line: &str, out: &mut String) -> Result<(), Fault> {
        if is_silent(line) {
            return Ok(());
        }
        let line = written_out(alloc, line, Count::FromZero)?;
        let (step, text) = first_word(line.as_str());
        self.step(alloc, step, text, out)
    }
}
