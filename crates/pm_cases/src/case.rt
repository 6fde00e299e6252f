//! A case: its steps, one a line.

use pm_case_runs::{
    INIT, Repeated, RunEnd, Setting, named, opening, push_alike, push_digits_at, push_drawn,
    push_failings, push_first, push_fuses, push_images, push_last, push_memory_text, push_named,
    push_read, push_round, push_run, push_texts, put_digest_of, run_next, seal,
};
use pm_case_text::{
    Count, Fault, first_word, is_silent, number, numbered, patch, push_case, push_lines,
    push_words, refuse, two_numbers, written_out,
};
use std::alloc::Global;
use std::mem;
use std::sync::Wait;
use std::thread::Threads;

/// What a case has come to.
#[derive(Drop)]
pub(crate) struct Case {
    /// The bytes that the next run finds on the disk.
    disk: Vec<u8>,
    /// Those on the other disk.
    other: Vec<u8>,
    /// With what the next run begins.
    setting: Setting,
    /// The script with which a disk is looked at that failed.
    look: Vec<u8>,
    /// How the last run ended, and whether it changed the disk's bytes.
    last: Option<RunEnd>,
    changed: bool,
}

// The last run.
fn ended(last: &Option<RunEnd>) -> Result<&RunEnd, Fault> {
    last.as_ref().ok_or(refuse("no run before"))
}

// Adds whether a run changed the disk's bytes.
fn push_changed(changed: bool, out: &mut String) -> Result<(), Fault> {
    let text = if changed {
        "disk changed\n"
    } else {
        "disk unchanged\n"
    };
    push_words(text, out)
}

impl Case {
    /// A case that has just begun: two empty disks, and no run.
    pub(crate) fn new(alloc: Global) -> Result<Case, Fault> {
        Ok(Case {
            disk: Vec::new(alloc),
            other: Vec::new(alloc),
            setting: Setting::new(alloc)?,
            look: Vec::new(alloc),
            last: None,
            changed: false,
        })
    }

    // The disks are what the last run left.
    fn keep_disks(&mut self, alloc: Global) -> Result<(), Fault> {
        let run = ended(&self.last)?;
        self.changed = run.disk() != self.disk.as_slice();
        self.disk = run.disk().to_vec(alloc)?;
        self.other = run.other().to_vec(alloc)?;
        Ok(())
    }

    // Runs with what was said so far and these lines; the disks are what the run leaves.
    fn go<R: AllocGlobal + Threads + Wait + Sync>(
        &mut self,
        rt: &R,
        lines: &str,
    ) -> Result<(), Fault> {
        let run = run_next(rt, &self.disk, &self.other, &mut self.setting, lines)?;
        self.last = Some(run);
        self.keep_disks(rt.alloc())
    }

    // How many calls the disk of the next run passes on, or which of them fail. They may be counted from behind those of
    // the opening.
    fn set_calls<R: AllocGlobal + Threads + Wait + Sync>(
        &mut self,
        rt: &R,
        step: &str,
        text: &str,
    ) -> Result<(), Fault> {
        let opening = opening(rt, &self.disk)?;
        if step == "fuse" {
            self.setting.set_number(step, text, opening)
        } else {
            self.setting.read_fails(rt.alloc(), step, text, opening)
        }
    }

    // With what a disk is looked at from here on.
    fn set_look(&mut self, alloc: Global, text: &str) -> Result<(), Fault> {
        self.look = Vec::new(alloc);
        push_lines(&mut self.look, text)
    }

    // The disk, or the other one, is the one of that name.
    fn lay<R: AllocGlobal + Threads + Wait + Sync>(
        &mut self,
        rt: &R,
        step: &str,
        text: &str,
    ) -> Result<(), Fault> {
        let bytes = named(rt, &self.last, text)?;
        if step == "disk" {
            self.disk = bytes;
        } else {
            self.other = bytes;
        }
        Ok(())
    }

    // The two disks change places, and so do those that the last run left.
    fn swap_disks(&mut self) {
        mem::swap(&mut self.disk, &mut self.other);
        if let Some(run) = &mut self.last {
            run.swap_disks();
        }
    }

    // Runs with these lines, and adds what the run wrote, the text of its end, and its status.
    fn go_and_push<R: AllocGlobal + Threads + Wait + Sync>(
        &mut self,
        rt: &R,
        lines: &str,
        out: &mut String,
    ) -> Result<(), Fault> {
        self.go(rt, lines)?;
        push_run(rt.alloc(), ended(&self.last)?, out)
    }

    // Makes a store, and adds what that gave.
    fn init<R: AllocGlobal + Threads + Wait + Sync>(
        &mut self,
        rt: &R,
        out: &mut String,
    ) -> Result<(), Fault> {
        self.setting.set_words(rt.alloc(), INIT)?;
        self.go_and_push(rt, "", out)
    }

    // Adds what a word names of the last run.
    fn push_word(&self, alloc: Global, word: &str, out: &mut String) -> Result<(), Fault> {
        if word == "changed" {
            return push_changed(self.changed, out);
        }
        push_named(alloc, ended(&self.last)?, word, out)
    }

    // Adds what each of the words names of the last run.
    fn show(&self, alloc: Global, text: &str, out: &mut String) -> Result<(), Fault> {
        for word in text.split(' ') {
            self.push_word(alloc, word, out)?;
        }
        Ok(())
    }

    // Adds the first lines that the last run wrote, or the last ones.
    fn push_some(&self, step: &str, text: &str, out: &mut String) -> Result<(), Fault> {
        let run = ended(&self.last)?;
        let count = number(text)?;
        if step == "first" {
            push_first(run, count, out)
        } else {
            push_last(run, count, out)
        }
    }

    // Adds what the reader of the whole grammar says of the script so far and these lines, or the lines that it finds.
    fn push_read(
        &mut self,
        alloc: Global,
        text: &str,
        whole: bool,
        out: &mut String,
    ) -> Result<(), Fault> {
        let said = self.setting.take(alloc, text, &[])?;
        push_read(alloc, said.script.as_slice(), whole, out)
    }

    // Adds what a script gives on images of the last run's disk.
    fn push_images<R: AllocGlobal + Threads + Wait + Sync>(
        &self,
        rt: &R,
        text: &str,
        out: &mut String,
    ) -> Result<(), Fault> {
        push_images(rt, ended(&self.last)?, text, out)
    }

    // Adds what a script gives over each fuse, and what it leaves: what was said so far and these lines.
    fn push_fuses<R: AllocGlobal + Threads + Wait + Sync>(
        &mut self,
        rt: &R,
        text: &str,
        out: &mut String,
    ) -> Result<(), Fault> {
        let (picks, lines) = numbered(text)?;
        let repeated = Repeated::new(
            rt.alloc(),
            &mut self.setting,
            lines,
            &self.disk,
            &self.other,
            &self.look,
        )?;
        push_fuses(rt, &repeated, picks, out)
    }

    // Adds what a script gives where each call of a part fails in turn.
    fn push_failings<R: AllocGlobal + Threads + Wait + Sync>(
        &mut self,
        rt: &R,
        text: &str,
        out: &mut String,
    ) -> Result<(), Fault> {
        let (part, lines) = first_word(text);
        let repeated = Repeated::new(
            rt.alloc(),
            &mut self.setting,
            lines,
            &self.disk,
            &self.other,
            &self.look,
        )?;
        push_failings(rt, &repeated, part, out)
    }

    // Adds what runs by workers of drawn scripts give, each on this disk.
    fn push_drawn<R: AllocGlobal + Threads + Wait + Sync>(
        &self,
        rt: &R,
        text: &str,
        out: &mut String,
    ) -> Result<(), Fault> {
        let (mode, numbers) = first_word(text);
        let (runs, lines) = two_numbers(numbers)?;
        push_drawn(rt, self.disk.as_slice(), mode, runs, lines, out)
    }

    // Adds the text of the last run's journal, or how many of its replies the plain slow program gives alike.
    fn push_journal(&self, alloc: Global, step: &str, out: &mut String) -> Result<(), Fault> {
        let run = ended(&self.last)?;
        if step == "texts" {
            push_texts(alloc, run.journal(), out)
        } else {
            push_alike(alloc, run.journal(), out)
        }
    }

    // A step that says with what the next run begins and what fails in it, or another one.
    fn set_step<R: AllocGlobal + Threads + Wait + Sync>(
        &mut self,
        rt: &R,
        step: &str,
        text: &str,
        out: &mut String,
    ) -> Result<(), Fault> {
        let alloc = rt.alloc();
        match step {
            "words" => self.setting.set_words(alloc, text),
            "times" => self.setting.push_times(alloc, text),
            "bytes" => self.setting.push_bytes(alloc, text),
            "generate" => self.setting.push_drawn(alloc, text),
            "pieces" | "other-fuse" => self.setting.set_number(step, text, 0),
            "source-fails" | "sink-fails" => self.setting.read_fails(alloc, step, text, 0),
            "fuse" | "disk-fails" => self.set_calls(rt, step, text),
            "look" => self.set_look(alloc, text),
            _ => self.lay_step(rt, step, text, out),
        }
    }

    // A step that changes the bytes of the disks, or another one.
    fn lay_step<R: AllocGlobal + Threads + Wait + Sync>(
        &mut self,
        rt: &R,
        step: &str,
        text: &str,
        out: &mut String,
    ) -> Result<(), Fault> {
        match step {
            "disk" | "other" => self.lay(rt, step, text),
            "swap" => Ok(self.swap_disks()),
            "patch" => patch(rt.alloc(), self.disk.as_mut_slice(), text),
            "digest" => put_digest_of(self.disk.as_mut_slice(), text),
            "seal" => seal(self.disk.as_mut_slice(), text),
            _ => self.run_step(rt, step, text, out),
        }
    }

    // A step that runs the program, or another one.
    fn run_step<R: AllocGlobal + Threads + Wait + Sync>(
        &mut self,
        rt: &R,
        step: &str,
        text: &str,
        out: &mut String,
    ) -> Result<(), Fault> {
        match step {
            "do" => self.go(rt, text),
            "run" => self.go_and_push(rt, text, out),
            "init" => self.init(rt, out),
            "images" => self.push_images(rt, text, out),
            "fuses" => self.push_fuses(rt, text, out),
            "fails-of" => self.push_failings(rt, text, out),
            "drawn" => self.push_drawn(rt, text, out),
            "round" => push_round(rt, self.disk.as_slice(), out),
            _ => self.show_step(rt.alloc(), step, text, out),
        }
    }

    // A step that shows something of a run, or reads the script so far or the disk.
    fn show_step(
        &mut self,
        alloc: Global,
        step: &str,
        text: &str,
        out: &mut String,
    ) -> Result<(), Fault> {
        match step {
            "show" => self.show(alloc, text, out),
            "first" | "last" => self.push_some(step, text, out),
            "texts" | "oracle" => self.push_journal(alloc, step, out),
            "read" | "lines" => self.push_read(alloc, text, step == "lines", out),
            "at" => push_digits_at(alloc, &self.disk, text, out),
            "memory-text" => push_memory_text(alloc, out),
            _ => Err(refuse("no such step")),
        }
    }

    // Begins the case of this name.
    fn begin(&mut self, alloc: Global, name: &str, out: &mut String) -> Result<(), Fault> {
        *self = Case::new(alloc)?;
        push_case(name, out)
    }

    // Takes a line that says something, written out.
    fn take_written<R: AllocGlobal + Threads + Wait + Sync>(
        &mut self,
        rt: &R,
        line: &str,
        out: &mut String,
    ) -> Result<(), Fault> {
        let (step, text) = first_word(line);
        if step == "case" {
            return self.begin(rt.alloc(), text, out);
        }
        self.set_step(rt, step, text, out)
    }

    /// Takes a line of the input, and adds what it gives. A line that begins with `#`, and one that is empty, say
    /// nothing.
    pub(crate) fn take<R: AllocGlobal + Threads + Wait + Sync>(
        &mut self,
        rt: &R,
        line: &str,
        out: &mut String,
    ) -> Result<(), Fault> {
        if is_silent(line) {
            return Ok(());
        }
        let line = written_out(rt.alloc(), line, Count::None)?;
        self.take_written(rt, line.as_str(), out)
    }
}
