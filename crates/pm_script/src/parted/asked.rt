//! How many commands, events of the collector and flush events are asked for.

ghost use Rattle.std.specs.Prelude.{◌≡◌, ◌^◌, ◌<◌, ◌≤◌, length};
ghost use Rattle.pm_script.specs.Parted.Asked.{flushes_asked, flushes_of, requests_asked, steps_asked, steps_of};

use crate::{Line, Script};

// How many events of the collector a line asks for.
fn steps_of(line: &Line) -> u64
    ensures is { result ≡ steps_of line.now }
    ensures few { result < 2 ^ 32 }
{
    match line {
        Line::Gc(count) => u64::from(*count),
        Line::Client { .. } | Line::Flush(_) => 0,
    }
}

// How many flush events a line asks for.
fn flushes_of(line: &Line) -> u64
    ensures is { result ≡ flushes_of line.now }
    ensures few { result < 2 ^ 32 }
{
    match line {
        Line::Flush(count) => u64::from(*count),
        Line::Client { .. } | Line::Gc(_) => 0,
    }
}

/// How many commands the lines ask: as many entries do they add to a journal.
pub fn commands_asked(lines: &[Line]) -> u64
    ensures all { result ≡ length (requests_asked lines.now) }
    ensures few { result ≤ length lines.now }
{
    let mut asked = 0;
    for line in lines {
        if matches!(line, Line::Client { .. }) {
            asked += 1;
        }
    }
    asked
}

/// How many events of the collector the lines ask for.
pub fn collects_asked(script: &Script) -> u64
    ensures all { result ≡ steps_asked script.now }
    ensures few { result < 2 ^ 48 }
{
    let lines = script.as_slice();
    let mut asked = 0;
    for line in lines {
        asked += steps_of(line);
    }
    asked
}

/// How many flush events the lines ask for.
pub fn flushes_asked(script: &Script) -> u64
    ensures all { result ≡ flushes_asked script.now }
    ensures few { result < 2 ^ 48 }
{
    let lines = script.as_slice();
    let mut asked = 0;
    for line in lines {
        asked += flushes_of(line);
    }
    asked
}
