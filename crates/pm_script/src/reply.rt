ghost use Rattle.std.specs.Prelude.{◌≡◌, ◌+◌, ◌*◌, ◌<◌, ◌≤◌, ◌++◌, length, take, drop, IfOk, OnOk, decimal};
ghost use Rattle.hex.specs.Hex.{encode_lower};
ghost use Rattle.pm_types.specs.declared.limits.TheConstants.{CLIENTS};
ghost use Rattle.pm_types.specs.Replies.{IsShortReply};
ghost use Rattle.pm_model.specs.Text.{pairs, reply_words, reply_line, text};
ghost use Rattle.pm_script.specs.Texts.{Puts, ending_text};

use hex::encode_to_slice;
use itoa::Buffer;
use pm_types::{Entry, NoMemory, Reply};
use std::alloc::Global;

/// The most bytes of a reply line: a client, a space, 8,192 digits, a newline.
pub const REPLY_BYTES: usize = 8195;

/// What stands after the words of a reply.
#[derive(Clone, Copy)]
pub(crate) enum Ending<'a> {
    Nothing,
    Number(u32),
    Pairs(&'a [u8]),
}

// The words of a reply, and what stands after them.
#[tactic(auto, using(crate::proofs::TextLemmas::number_short, crate::proofs::TextLemmas::pairs_short))]
fn parts(reply: &Reply) -> (&'static [u8], Ending<'_>)
    ensures text { result.0.now ++ ending_text result.1 ≡ reply_words reply.now }
    ensures short { IsShortReply reply.now → length result.0.now + length (ending_text result.1) ≤ 8192 }
{
    match reply {
        Reply::Done => (b"ok", Ending::Nothing),
        Reply::Ident(id) => (b"ok ", Ending::Number(*id)),
        Reply::Null => (b"null", Ending::Nothing),
        Reply::Shown(bytes) => (b"", Ending::Pairs(bytes.as_slice())),
        Reply::Begun(number) => (b"begun ", Ending::Number(*number)),
        Reply::Saved(number) => (b"saved ", Ending::Number(*number)),
        Reply::Watching(number) => (b"watching ", Ending::Number(*number)),
        Reply::TooLarge => (b"too-large", Ending::Nothing),
        Reply::IdsSpent => (b"ids-spent", Ending::Nothing),
        Reply::NoHandle => (b"no-handle", Ending::Nothing),
        Reply::NoField => (b"no-field", Ending::Nothing),
        Reply::OutOfRange => (b"out-of-range", Ending::Nothing),
        Reply::TooManyRoots => (b"too-many-roots", Ending::Nothing),
        Reply::NoRoot => (b"no-root", Ending::Nothing),
        Reply::Busy(number) => (b"busy ", Ending::Number(*number)),
        Reply::SavesSpent => (b"saves-spent", Ending::Nothing),
        Reply::Idle => (b"idle", Ending::Nothing),
        Reply::TooManyWatches => (b"too-many-watches", Ending::Nothing),
        Reply::Dropped(number) => (b"dropped ", Ending::Number(*number)),
        Reply::Held(id) => (b"held ", Ending::Number(*id)),
    }
}

// Puts the words at a place, and tells the place after them.
fn put(out: &mut [u8], at: usize, words: &[u8]) -> usize
    requires { at + length words.now ≤ length out.old }
    ensures { Puts out.old at words.now out.new result }
{
    let end = at + words.len();
    out[at..end].copy_from_slice(words);
    end
}

// Puts a number in decimal digits.
fn put_number(out: &mut [u8], at: usize, number: u32) -> usize
    requires { at + length (decimal number) ≤ length out.old }
    ensures { Puts out.old at (decimal number) out.new result }
{
    let mut buffer = Buffer::new();
    put(out, at, buffer.format(number).as_bytes())
}

// Puts bytes as pairs of digits.
fn put_digits(out: &mut [u8], at: usize, bytes: &[u8]) -> usize
    requires { at + 2 * length bytes.now ≤ length out.old }
    ensures { Puts out.old at (encode_lower bytes.now) out.new result }
{
    let end = at + 2 * bytes.len();
    encode_to_slice(bytes, &mut out[at..end]).unwrap();
    end
}

// Puts bytes as pairs of digits, or a dash for none.
#[tactic(auto, using(crate::proofs::TextLemmas::pairs_long, crate::proofs::TextLemmas::pairs_some))]
fn put_pairs(out: &mut [u8], at: usize, bytes: &[u8]) -> usize
    requires { at + length (pairs bytes.now) ≤ length out.old }
    ensures { Puts out.old at (pairs bytes.now) out.new result }
{
    if bytes.is_empty() {
        put(out, at, b"-")
    } else {
        put_digits(out, at, bytes)
    }
}

// Puts what stands after a reply's words.
fn put_ending(out: &mut [u8], at: usize, ending: Ending<'_>) -> usize
    requires { at + length (ending_text ending) ≤ length out.old }
    ensures { Puts out.old at (ending_text ending.entry) out.new result }
{
    match ending {
        Ending::Nothing => put(out, at, b""),
        Ending::Number(number) => put_number(out, at, number),
        Ending::Pairs(bytes) => put_pairs(out, at, bytes),
    }
}

/// Puts the entry's reply line at the front of `out`, and answers the line's length in bytes. The rest of `out` is as it
/// was, and no memory is taken. The client is below 8, and a reply shows 4,096 bytes at most, as an object has.
pub fn reply_into(entry: &Entry, out: &mut [u8]) -> usize
    requires room { 8195 ≤ length out.old }
    requires client { entry.now.client < CLIENTS }
    requires short { IsShortReply entry.now.reply }
    ensures text { take result out.new ≡ reply_line entry.now }
    ensures rest { drop result out.new ≡ drop result out.old }
    ensures len { result ≡ length (reply_line entry.now) }
{
    let (words, ending) = parts(&entry.reply);
    let at = put_number(out, 0, entry.client);
    let at = put(out, at, b" ");
    let at = put(out, at, words);
    let at = put_ending(out, at, ending);
    put(out, at, b"\n")
}

// Appends what stands after a reply's words.
fn append_ending(alloc: Global, out: &mut Vec<u8>, ending: Ending<'_>) -> Result<(), NoMemory>
    ensures { OnOk result (out.new.items ≡ out.old.items ++ ending_text ending.entry) }
{
    match ending {
        Ending::Nothing => {}
        Ending::Number(number) => {
            let mut buffer = Buffer::new();
            out.extend_from_slice(buffer.format(number).as_bytes())?;
        }
        Ending::Pairs(bytes) => {
            if bytes.is_empty() {
                out.extend_from_slice(b"-")?;
            } else {
                let digits = hex::encode(alloc, bytes)?;
                out.extend_from_slice(digits.as_bytes())?;
            }
        }
    }
    Ok(())
}

// Appends the line of an entry.
fn append_line(alloc: Global, out: &mut Vec<u8>, entry: &Entry) -> Result<(), NoMemory>
    ensures { OnOk result (out.new.items ≡ out.old.items ++ reply_line entry.now) }
{
    let (words, ending) = parts(&entry.reply);
    let mut buffer = Buffer::new();
    out.extend_from_slice(buffer.format(entry.client).as_bytes())?;
    out.extend_from_slice(b" ")?;
    out.extend_from_slice(words)?;
    append_ending(alloc, out, ending)?;
    out.extend_from_slice(b"\n")?;
    Ok(())
}

/// The entry's reply line.
pub fn reply_text(alloc: Global, entry: &Entry) -> Result<Vec<u8>, NoMemory>
    ensures { IfOk result (λ line. line.items ≡ reply_line entry.now) }
{
    let mut out = Vec::new(alloc);
    append_line(alloc, &mut out, entry)?;
    Ok(out)
}

/// The text of a journal: the reply line of each entry, in order.
pub fn journal_text(alloc: Global, entries: &[Entry]) -> Result<Vec<u8>, NoMemory>
    ensures { IfOk result (λ lines. lines.items ≡ text entries.now) }
{
    let mut out = Vec::new(alloc);
    for entry in entries {
        append_line(alloc, &mut out, entry)?;
    }
    Ok(out)
}
