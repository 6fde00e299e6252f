ghost use Rattle.std.specs.Prelude.{◌≡◌, Some, None, MatchOption};
ghost use Rattle.pm_types.specs.declared.limits.TheConstants.{CLIENTS};
ghost use Rattle.pm_script.specs.Lines.{parts_in};
ghost use Rattle.pm_script.specs.Reading.{Gives};
ghost use Rattle.pm_script.specs.Values.{number_below};
ghost use Rattle.pm_peer.specs.Questions.{one_of, two_of, look_at, number_in, count_at, question_said, question_in, asked_at};

use crate::question::{Question, is_word, named_question};
use pm_script::{Cause, LINE_BYTES, Line, LineFault, number_of, read_line, register_of, take_word};
use pm_types::{CLIENTS, Reg};
use std::alloc::Global;

/// What one line of a conversation asks.
#[derive(Debug, Drop)]
pub enum Asked {
    /// What a line of a script asks: a command of a client, or events.
    Line(Line),
    /// What a register of a client holds.
    Look {
        /// The client's number, 0 to 7.
        client: u32,
        reg: Reg,
    },
    /// The name at this place, counted from 0, in ascending order of bytes.
    Name(u32),
    /// How many events were made, how many collections were completed, and how many objects stand.
    Count,
    /// How far the watch of this number has come.
    Watch(u32),
}

// The client that a word spells.
#[tactic(auto, unfolding(pm_script::specs::Values::number_below))]
fn client_of(word: &[u8]) -> Option<u32>
    ensures { result ≡ number_below CLIENTS word.now }
{
    let number = number_of(word)?;
    if number < CLIENTS { Some(number) } else { None }
}

// The one word that is left, of exactly one.
fn only_word(words: Option<&[u8]>) -> Option<&[u8]>
    ensures { MatchOption result (one_of (parts_in 32 words.entry) ≡ None)
        (λ word. one_of (parts_in 32 words.entry) ≡ Some word.now) }
{
    let (word, rest) = take_word(words)?;
    match take_word(rest) {
        Some(_) => None,
        None => Some(word),
    }
}

// The two words that are left, of exactly two.
fn both_words(words: Option<&[u8]>) -> Option<(&[u8], &[u8])>
    ensures { MatchOption result (two_of (parts_in 32 words.entry) ≡ None)
        (λ both. two_of (parts_in 32 words.entry) ≡ Some (both.0.now, both.1.now)) }
{
    let (one, rest) = take_word(words)?;
    let (two, rest) = take_word(rest)?;
    match take_word(rest) {
        Some(_) => None,
        None => Some((one, two)),
    }
}

// The number that is left, by itself.
#[tactic(auto, unfolding(crate::specs::Questions::number_in))]
fn number(words: Option<&[u8]>) -> Result<u32, LineFault>
    ensures { Gives result (number_in (parts_in 32 words.entry)) }
{
    let Some(word) = only_word(words) else {
        return Err(LineFault::Bad(Cause::Count));
    };
    match number_of(word) {
        Some(number) => Ok(number),
        None => Err(LineFault::Bad(Cause::Number)),
    }
}

// The client and the register that are left, by themselves.
#[tactic(auto, unfolding(crate::specs::Questions::look_at))]
fn look(words: Option<&[u8]>) -> Result<Asked, LineFault>
    ensures { Gives result (look_at (parts_in 32 words.entry)) }
{
    let Some((client, register)) = both_words(words) else {
        return Err(LineFault::Bad(Cause::Count));
    };
    let Some(client) = client_of(client) else {
        return Err(LineFault::Bad(Cause::Number));
    };
    let Some(reg) = register_of(register) else {
        return Err(LineFault::Bad(Cause::Number));
    };
    Ok(Asked::Look { client, reg })
}

// Nothing is left.
fn count(words: Option<&[u8]>) -> Result<Asked, LineFault>
    ensures { Gives result (count_at (parts_in 32 words.entry)) }
{
    match take_word(words) {
        Some(_) => Err(LineFault::Bad(Cause::Count)),
        None => Ok(Asked::Count),
    }
}

// What is asked by a question and the words that are left.
#[tactic(auto, unfolding(crate::specs::Questions::question_said))]
fn read_question(question: Question, words: Option<&[u8]>) -> Result<Asked, LineFault>
    ensures { Gives result (question_said question (parts_in 32 words.entry)) }
{
    match question {
        Question::Look => look(words),
        Question::Name => Ok(Asked::Name(number(words)?)),
        Question::Count => count(words),
        Question::Watch => Ok(Asked::Watch(number(words)?)),
    }
}

// The question that the words ask, and the words behind its own; nothing where they ask none.
fn question_in(words: Option<&[u8]>) -> Option<(Question, Option<&[u8]>)>
    ensures { MatchOption result (question_in (parts_in 32 words.entry) ≡ None)
        (λ found. question_in (parts_in 32 words.entry) ≡ Some (found.0, parts_in 32 found.1)) }
{
    let (first, rest) = take_word(words)?;
    let (second, rest) = take_word(rest)?;
    if !is_word(first, b"!") {
        return None;
    }
    let question = named_question(second)?;
    Some((question, rest))
}

/// What a line of a conversation asks: of 1 to 16,384 bytes (`LINE_BYTES`), without its newline, the first no `#`. Where
/// its first word is `!`, behind `look` stand a client, 0 to 7, and a register, behind `name` a place, behind `count`
/// nothing, and behind `watch` a number; every other line asks what `read_line` says. `Bad` gives the first cause that
/// applies: `LineTooLong`, then, of a question, `Count`, and then `Number`.
#[tactic(auto, unfolding(crate::specs::Questions::asked_at))]
pub fn read_asked(alloc: Global, body: &[u8]) -> Result<Asked, LineFault>
    ensures { Gives result (asked_at body.now) }
{
    if body.len() > LINE_BYTES {
        return Err(LineFault::Bad(Cause::LineTooLong));
    }
    match question_in(Some(body)) {
        Some((question, words)) => read_question(question, words),
        None => Ok(Asked::Line(read_line(alloc, body)?)),
    }
}
