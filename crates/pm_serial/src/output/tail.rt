//! The end line and a line for each watch, at the end of a run: bytes that take no memory, on their way to a sink.

ghost use Rattle.std.specs.Prelude.{◌≡◌, ◌+◌, ◌≤◌, ◌++◌, length, OnOk, OnErr};
ghost use Rattle.std.specs.List.{flat_map};
ghost use Rattle.arrayvec.specs.ArrayVec.{array_vec_len};
ghost use Rattle.pm_types.specs.Counts.{Rose};
ghost use Rattle.pm_model.specs.Text.{end_line, tail, watch_line};
ghost use Rattle.pm_serial.specs.declared.output.line.TheConstants.{LINE_BYTES};
ghost use Rattle.pm_serial.specs.Output.Gathered.{gathered};
ghost use Rattle.pm_serial.specs.Output.Writing.{GoesOn, PutsPart};

use crate::output::Output;
use crate::output::line::{Line, append, append_number};
use itoa::Integer;
use pm_io::{Failed, Sink};
use pm_types::WatchLine;

// Appends words, and a number behind them.
fn append_column<I: Integer>(line: &mut Line, words: &[u8], number: I)
    requires { array_vec_len line.old + length words.now + I.MAX_STR_LEN ≤ LINE_BYTES }
    ensures text { line.new.items ≡ line.old.items ++ words.now ++ I.text number }
    ensures len { array_vec_len line.new ≤ array_vec_len line.old + length words.now + I.MAX_STR_LEN }
{
    append(line, words);
    append_number(line, number);
}

// The line at the end of a run.
fn end_line(steps: u64, completed: u64, standing: u64) -> Line
    ensures { result.items ≡ end_line steps completed standing }
{
    let mut line = Line::new();
    append_column(&mut line, b"end ", steps);
    append_column(&mut line, b" ", completed);
    append_column(&mut line, b" ", standing);
    append(&mut line, b"\n");
    line
}

// The line of a watch: 25 bytes of words, and numbers of 10, 39, 20 and 20 digits at most.
fn watch_line(watch: &WatchLine) -> Line
    ensures { result.items ≡ watch_line watch.now }
{
    let mut line = Line::new();
    append_column(&mut line, b"watch ", watch.number);
    append_column(&mut line, b" bound ", watch.bound);
    append_column(&mut line, b" done ", watch.done);
    append_column(&mut line, b" old ", watch.old);
    append(&mut line, b"\n");
    line
}

// Puts a line for each watch behind what is gathered.
fn add_watches<K: Sink>(
    output: &mut Output,
    sink: &mut K,
    lines: &[WatchLine],
) -> Result<(), Failed>
    ensures adds { OnOk result (GoesOn (flat_map watch_line lines.now) (K.written sink.old) (K.written sink.new)
        (gathered output.old) (gathered output.new)) }
    ensures part { OnErr result (PutsPart (K.written sink.old) (K.written sink.new)
        (gathered output.old ++ flat_map watch_line lines.now)) }
    ensures finish_stays { K.finished sink.new ≡ K.finished sink.old }
    ensures counted { OnOk result (K.count sink.new ≡ K.count sink.old) }
    ensures cause { OnErr result (Rose (K.count sink.old) (K.count sink.new)) }
{
    for watch in lines {
        output.add_line(sink, watch_line(watch).as_slice())?;
    }
    Ok(())
}

/// Puts the end line and a line for each watch behind what is gathered. The end line tells how many events of the
/// collector were made (`steps`), how many collections were completed and how many objects stand; the lines of the
/// watches are in order. It takes no memory.
///
/// # Errors
///
/// The sink failed: it has a first part of what was gathered before and of these lines, which may be none or all.
pub fn add_tail<K: Sink>(
    output: &mut Output,
    sink: &mut K,
    steps: u64,
    completed: u64,
    standing: u64,
    lines: &[WatchLine],
) -> Result<(), Failed>
    ensures adds { OnOk result (GoesOn (tail steps completed standing lines.now)
        (K.written sink.old) (K.written sink.new) (gathered output.old) (gathered output.new)) }
    ensures part { OnErr result (PutsPart (K.written sink.old) (K.written sink.new)
        (gathered output.old ++ tail steps completed standing lines.now)) }
    ensures finish_stays { K.finished sink.new ≡ K.finished sink.old }
    ensures counted { OnOk result (K.count sink.new ≡ K.count sink.old) }
    ensures cause { OnErr result (Rose (K.count sink.old) (K.count sink.new)) }
{
    output.add_line(sink, end_line(steps, completed, standing).as_slice())?;
    add_watches(output, sink, lines)
}
