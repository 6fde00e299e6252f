//! What is printed of a run.

use crate::ends::push_end;
use crate::running::RunEnd;
use crate::tallies::{push_tally, push_young};
use pm_case_text::told::push_digest_of;
use pm_case_text::{Fault, push_filled, push_said, push_text, push_words, refuse};
use pm_disk::DiskCall;
use pm_script::journal_text;
use pm_types::PAGE_BYTES;
use std::alloc::Global;

/// Adds what a run wrote, the text of its end, and its status.
pub fn push_run(alloc: Global, run: &RunEnd, out: &mut String) -> Result<(), Fault> {
    push_text(run.written(), out)?;
    push_end(alloc, &run.detail, out)?;
    push_said("status", run.status as u64, out)
}

// Adds two texts, one behind the other.
fn push_both(first: &str, second: &str, out: &mut String) -> Result<(), Fault> {
    push_words(first, out)?;
    push_words(second, out)
}

// Adds the line at this place of a text, the first of which is 0: each other one behind ` / `.
fn push_part(place: usize, line: &str, out: &mut String) -> Result<(), Fault> {
    push_both(if place > 0 { " / " } else { "" }, line, out)
}

// Adds the lines of a text, with ` / ` between them.
fn push_parts(text: &str, out: &mut String) -> Result<(), Fault> {
    for (place, line) in text.split_terminator('\n').enumerate() {
        push_part(place, line, out)?;
    }
    Ok(())
}

// Adds the same as a line.
fn push_in_line(text: &str, out: &mut String) -> Result<(), Fault> {
    push_parts(text, out)?;
    push_words("\n", out)
}

/// Adds the same as one line, with ` / ` between its parts.
pub(crate) fn push_run_in_line(alloc: Global, run: &RunEnd, out: &mut String) -> Result<(), Fault> {
    let mut text = String::new(alloc);
    push_run(alloc, run, &mut text)?;
    push_in_line(text.as_str(), out)
}

// Adds those lines of a text that stand at these places, the first of which is 0.
fn push_lines_at(text: &str, from: usize, until: usize, out: &mut String) -> Result<(), Fault> {
    for (place, line) in text.split_terminator('\n').enumerate() {
        if place >= from && place < until {
            push_both(line, "\n", out)?;
        }
    }
    Ok(())
}

// What a run wrote, which is text.
fn written(run: &RunEnd) -> Result<&str, Fault> {
    str::from_utf8(run.written()).ok().ok_or(refuse("no text"))
}

/// Adds the last lines of what a run wrote, this number at most.
pub fn push_last(run: &RunEnd, count: u64, out: &mut String) -> Result<(), Fault> {
    let text = written(run)?;
    let lines = text.split_terminator('\n').count();
    push_lines_at(text, lines.saturating_sub(count as usize), lines, out)
}

/// Adds the first lines of what a run wrote, this number at most.
pub fn push_first(run: &RunEnd, count: u64, out: &mut String) -> Result<(), Fault> {
    push_lines_at(written(run)?, 0, count as usize, out)
}

// Adds one call of the disk: its kind, and for a write the page and the byte where it begins.
fn push_call(call: &DiskCall, out: &mut String) -> Result<(), Fault> {
    match call {
        DiskCall::Len => push_words(" len", out),
        DiskCall::Read { .. } => push_words(" read", out),
        DiskCall::Write { at, .. } => {
            let page_bytes = PAGE_BYTES as u64;
            push_filled(" write %:%", &[*at / page_bytes, *at % page_bytes], out)
        }
        DiskCall::Sync => push_words(" sync", out),
    }
}

// Adds these calls.
fn push_each_call(calls: &[DiskCall], out: &mut String) -> Result<(), Fault> {
    for call in calls {
        push_call(call, out)?;
    }
    Ok(())
}

// Adds the calls of the disk in their order, a line.
fn push_calls(calls: &[DiskCall], out: &mut String) -> Result<(), Fault> {
    push_words("calls", out)?;
    push_each_call(calls, out)?;
    push_words("\n", out)
}

// Adds how many calls of the disk and of the sink failed since memory was refused them.
fn push_refused(run: &RunEnd, out: &mut String) -> Result<(), Fault> {
    push_filled(
        "refused % %\n",
        &[run.disk.refused(), run.sink.refused()],
        out,
    )
}

// Adds the reply line of each entry of the journal.
fn push_entries(alloc: Global, run: &RunEnd, out: &mut String) -> Result<(), Fault> {
    let text = journal_text(alloc, run.journal.as_slice())?;
    push_text(text.as_slice(), out)
}

// The number that is known by this word of the last run.
fn counted(run: &RunEnd, word: &str) -> Result<u64, Fault> {
    match word {
        "status" => Ok(run.status as u64),
        "written" => Ok(run.written().len() as u64),
        "finished" => Ok(run.sink.finished()),
        "journal" => Ok(run.journal.len() as u64),
        "bytes" => Ok(run.disk.contents().len() as u64),
        _ => Err(refuse("nothing of that name")),
    }
}

/// Adds what is known by this word of the last run.
pub fn push_named(alloc: Global, run: &RunEnd, word: &str, out: &mut String) -> Result<(), Fault> {
    match word {
        "text" => push_end(alloc, &run.detail, out),
        "output" => push_text(run.written(), out),
        "entries" => push_entries(alloc, run, out),
        "refused" => push_refused(run, out),
        "tally" => push_tally(run, out),
        "young" => push_young(run, out),
        "calls" => push_calls(run.disk.calls(), out),
        "sha256" => push_digest_of(alloc, run.disk.contents(), out),
        "output-sha256" => push_digest_of(alloc, run.written(), out),
        _ => push_said(word, counted(run, word)?, out),
    }
}
