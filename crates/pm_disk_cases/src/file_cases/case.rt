//! A case: its steps, one a line.

use crate::file_cases::files::push_files;
use crate::file_cases::system::System;
use crate::file_cases::systems::{opened, push_descriptors, push_disk};
use pm_case_text::{Fault, first_word, is_silent, push_case, push_words, refuse};

// The descriptors of the three standard streams.
const STREAMS: u32 = 0b111;

/// What a case has come to.
#[derive(Drop)]
pub struct Case {
    rt: HostRuntime,
    system: System,
}

impl Case {
    /// A case that has just begun: a system with an empty file, in which the standard streams are open.
    pub fn new(rt: HostRuntime) -> Case {
        Case {
            rt,
            system: System::new(rt.alloc(), STREAMS),
        }
    }

    // From here on there is a new system, in which these descriptors are open.
    fn begin(&mut self, open: u32) {
        self.system = System::new(self.rt.alloc(), open);
    }

    // Begins the case of this name.
    fn begin_case(&mut self, name: &str, out: &mut String) -> Result<(), Fault> {
        self.begin(STREAMS);
        push_case(name, out)
    }

    // From here on there is a new system, in which the descriptors that are spelled are open.
    fn begin_system(&mut self, digits: &str) -> Result<(), Fault> {
        self.begin(opened(digits)?);
        Ok(())
    }

    // Adds a line: the descriptors that are open.
    fn push_open(&self, out: &mut String) -> Result<(), Fault> {
        push_descriptors(&self.system, out)?;
        push_words("\n", out)
    }

    // A step: its first word, and what follows.
    fn step(&mut self, step: &str, text: &str, out: &mut String) -> Result<(), Fault> {
        match step {
            "case" => self.begin_case(text, out),
            "system" => self.begin_system(text),
            "disk" => push_disk(self.rt.alloc(), &self.system, text, out),
            "open" => self.push_open(out),
            "files" => push_files(self.rt, text, out),
            _ => Err(refuse("no such step")),
        }
    }

    /// Takes a line of the input, and adds what it gives. A line that begins with `#`, and one that is empty, say
    /// nothing.
    pub fn take(&mut self, line: &str, out: &mut String) -> Result<(), Fault> {
        if is_silent(line) {
            return Ok(());
        }
        let (step, text) = first_word(line);
        self.step(step, text, out)
    }
}
