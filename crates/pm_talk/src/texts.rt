//! The lines that are told, each but a reply line and the lines of objects and names: bytes that take no memory.

ghost use Rattle.std.specs.Prelude.{◌≡◌, ◌+◌, ◌≤◌, ◌++◌, length, IfOk};
ghost use Rattle.arrayvec.specs.ArrayVec.{array_vec_len};
ghost use Rattle.pm_model.specs.Text.{end_line, watch_line};
ghost use Rattle.pm_serial.specs.declared.output.line.TheConstants.{LINE_BYTES};
ghost use Rattle.pm_talk.specs.Texts.{cause_word, cut_line, disk_fault_line, fault_line, flush_line, gc_line, greeting, look_line, marked, name_line, no_memory_line, watch_told};
ghost use Rattle.std.specs.Prelude.{None};

use itoa::Integer;
use pm_script::Cause;
use pm_serial::output::line::{Line, append, append_number, line_with};
use pm_types::{NoMemory, WatchLine};
use std::alloc::Global;

// Appends words, and a number behind them.
fn append_column<I: Integer>(line: &mut Line, words: &[u8], number: I)
    requires { array_vec_len line.old + length words.now + I.MAX_STR_LEN ≤ LINE_BYTES }
    ensures text { line.new.items ≡ line.old.items ++ words.now ++ I.text number }
    ensures len { array_vec_len line.new ≤ array_vec_len line.old + length words.now + I.MAX_STR_LEN }
{
    append(line, words);
    append_number(line, number);
}

/// The greeting, with the number of the copy that was opened.
pub(crate) fn greeting(number: u32) -> Line
    ensures { result.items ≡ greeting number }
{
    let mut line = Line::new();
    append_column(&mut line, b"pmos talk 1 ", number);
    append(&mut line, b"\n");
    line
}

// The word for what is wrong with a line.
fn cause_word(cause: Cause) -> &'static [u8]
    ensures text { result.now ≡ cause_word cause }
    ensures short { length result.now ≤ 8 }
{
    match cause {
        Cause::LineTooLong => b"too-long",
        Cause::Client => b"client",
        Cause::Word => b"word",
        Cause::Count => b"count",
        Cause::Number => b"number",
        Cause::Hex => b"hex",
        Cause::Name => b"name",
    }
}

/// What is told to a faulty line.
pub(crate) fn fault_line(cause: Cause) -> Line
    ensures { result.items ≡ fault_line cause }
{
    let mut line = line_with(b"? ");
    append(&mut line, cause_word(cause));
    append(&mut line, b"\n");
    line
}

/// What is told where memory ran out. It is made of the evidence, so that it is told for nothing else.
pub(crate) fn no_memory_line(_refused: NoMemory) -> Line
    ensures { result.items ≡ no_memory_line }
{
    line_with(b"? no-memory\n")
}

/// What is told where the disk failed.
pub(crate) fn disk_fault_line() -> Line
    ensures { result.items ≡ disk_fault_line }
{
    line_with(b"? disk-fault\n")
}

/// What is told to half a line.
pub(crate) fn cut_line() -> Line
    ensures { result.items ≡ cut_line }
{
    line_with(b"? cut\n")
}

/// What is told to events of the collector: how many collections were completed.
pub(crate) fn gc_line(completed: u64) -> Line
    ensures { result.items ≡ gc_line completed }
{
    let mut line = Line::new();
    append_column(&mut line, b"! gc ", completed);
    append(&mut line, b"\n");
    line
}

/// What is told to flush events: how many pages they wrote.
pub(crate) fn flush_line(wrote: u32) -> Line
    ensures { result.items ≡ flush_line wrote }
{
    let mut line = Line::new();
    append_column(&mut line, b"! flush ", wrote);
    append(&mut line, b"\n");
    line
}

/// What is told of a register that holds nothing.
pub(crate) fn no_handle_line() -> Line
    ensures { result.items ≡ look_line None }
{
    line_with(b"! no-handle\n")
}

/// What is told of a name that there is not.
pub(crate) fn no_root_line() -> Line
    ensures { result.items ≡ name_line None }
{
    line_with(b"! no-root\n")
}

/// What is told of a watch that there is not.
pub(crate) fn no_watch_line() -> Line
    ensures { result.items ≡ watch_told None }
{
    line_with(b"! no-watch\n")
}

/// The end line of these counts.
pub(crate) fn end_line(steps: u64, completed: u64, standing: u64) -> Line
    ensures text { result.items ≡ end_line steps completed standing }
    ensures short { array_vec_len result ≤ 67 }
{
    let mut line = Line::new();
    append_column(&mut line, b"end ", steps);
    append_column(&mut line, b" ", completed);
    append_column(&mut line, b" ", standing);
    append(&mut line, b"\n");
    line
}

/// The line of a watch: 25 bytes of words, and numbers of 10, 39, 20 and 20 digits at most.
pub(crate) fn watch_line(watch: &WatchLine) -> Line
    ensures text { result.items ≡ watch_line watch.now }
    ensures short { array_vec_len result ≤ 114 }
{
    let mut line = Line::new();
    append_column(&mut line, b"watch ", watch.number);
    append_column(&mut line, b" bound ", watch.bound);
    append_column(&mut line, b" done ", watch.done);
    append_column(&mut line, b" old ", watch.old);
    append(&mut line, b"\n");
    line
}

/// A line behind an exclamation mark.
pub(crate) fn marked_line(line: &Line) -> Line
    requires { array_vec_len line.now + 2 ≤ LINE_BYTES }
    ensures { result.items ≡ marked line.now.items }
{
    let mut marked = line_with(b"! ");
    append(&mut marked, line.as_slice());
    marked
}

/// A text behind an exclamation mark. Memory is taken for it.
pub(crate) fn marked_text(alloc: Global, text: &[u8]) -> Result<Vec<u8>, NoMemory>
    ensures { IfOk result (λ line. line.items ≡ marked text.now) }
{
    let mut line = Vec::new(alloc);
    line.extend_from_slice(b"! ")?;
    line.extend_from_slice(text)?;
    Ok(line)
}
