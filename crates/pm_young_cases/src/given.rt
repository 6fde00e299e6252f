//! Commands that are given up to an engine with a nursery.

ghost use Rattle.std.specs.Prelude.{◌≡◌, ◌<◌, false};
ghost use Rattle.pm_types.specs.declared.limits.TheConstants.{CLIENTS};
ghost use Rattle.pm_model.specs.Frames.{sets_watch};
ghost use Rattle.pm_young.specs.Seen.{chooser};

use crate::commands::{is_watch, push_last_entry, young_script};
use crate::events::push_fault;
use pm_case_text::{Fault, refuse};
use pm_disk::Disk;
use pm_script::{Line, YoungLine};
use pm_types::{CLIENTS, Cmd};
use pm_young::YoungEngine;
use std::alloc::Global;

// Gives a client's command, and adds the reply's line of the journal's last entry, or why it was not answered.
fn push_given<D: Disk, F: Drop>(
    alloc: Global,
    engine: &mut YoungEngine<D, F>,
    client: u32,
    cmd: Cmd,
    out: &mut String,
) -> Result<(), Fault>
    requires client { client < CLIENTS }
    requires no_watch { sets_watch cmd ≡ false }
    ensures { chooser engine.new ≡ chooser engine.old }
{
    match engine.give(alloc, client, cmd) {
        Ok(_) => push_last_entry(alloc, engine.journal(), out),
        Err(fault) => push_fault(fault, out),
    }
}

// The same of a line, unless it is none of a client.
fn push_given_line<D: Disk, F: Drop>(
    alloc: Global,
    engine: &mut YoungEngine<D, F>,
    line: YoungLine,
    out: &mut String,
) -> Result<(), Fault>
    ensures { chooser engine.new ≡ chooser engine.old }
{
    match line {
        YoungLine::Base(Line::Client { client, cmd }) if client < CLIENTS && !is_watch(&cmd) => {
            push_given(alloc, engine, client, cmd, out)
        }
        _ => Err(refuse("no line of a client")),
    }
}

/// Gives up the command of a line to an engine, and adds the reply's line, or why it was not answered.
pub(crate) fn push_give<D: Disk, F: Drop>(
    alloc: Global,
    engine: &mut YoungEngine<D, F>,
    text: &str,
    out: &mut String,
) -> Result<(), Fault>
    ensures { chooser engine.new ≡ chooser engine.old }
{
    match young_script(alloc, text)?.into_lines().pop() {
        Some(line) => push_given_line(alloc, engine, line, out),
        None => Err(refuse("no line of a client")),
    }
}
