use crate::fault::Fault;
use std::alloc::Global;
use std::collections::BTreeMap;
use std::fmt::Write;

/// Texts, and how often each of them came.
#[derive(Drop)]
pub struct Texts {
    counts: BTreeMap<String, u64>,
}

impl Texts {
    /// No text.
    pub fn new(alloc: Global) -> Texts {
        Texts {
            counts: BTreeMap::new(alloc),
        }
    }

    /// Counts a text once more.
    pub fn note(&mut self, text: String) -> Result<(), Fault> {
        let times = self.counts.entry(text)?.or_insert(0);
        *times = times.saturating_add(1);
        Ok(())
    }

    /// Adds a line for each text, in their order: how often it came, and the text.
    pub fn push(&self, out: &mut String) -> Result<(), Fault> {
        for (text, times) in self.counts.iter() {
            writeln!(out, "- {times} of {text}")?;
        }
        Ok(())
    }
}
