//! What is said by the words behind a verb. Each function has the kind of lines as a parameter, though it reads the same for
//! each: so each reader has code of its own, which is put in where it is called.
ghost use Rattle.std.specs.Prelude.{◌≡◌, [], ◌∷◌, MatchResult};
ghost use Rattle.pm_types.specs.declared.caused.Fault.TheVariants as line_fault;
ghost use Rattle.pm_script.specs.declared.fault.Cause.TheVariants as causes;
ghost use Rattle.pm_script.specs.Lines.{parts_in};
ghost use Rattle.pm_script.specs.Reading.{Gives, Takes};
ghost use Rattle.pm_script.specs.declared.verb.Verb.TheVariants as verb;
ghost use Rattle.pm_script.specs.Taking.{register_at, number_at, bytes_at, name_at, command_at, events_at, asked_at};

use crate::fault::{Cause, LineFault};
use crate::line::Line;
use crate::parts::take_word;
use crate::value::{hex_word, name_word, number_of, register_of};
use crate::verb::{First, Verb};
use pm_types::{Bytes, Cmd, Name, Reg};
use std::alloc::Global;

// The word that stands first of those that are left, which is taken away.
fn next_word<'a>(words: &mut Option<&'a [u8]>) -> Result<&'a [u8], LineFault>
    ensures { MatchResult result (λ word. parts_in 32 words.old ≡ word.now ∷ parts_in 32 words.new)
        (λ fault. (fault ≡ line_fault.Bad causes.Count) × (parts_in 32 words.old ≡ [])) }
{
    match take_word(*words) {
        Some((word, rest)) => {
            *words = rest;
            Ok(word)
        }
        None => Err(LineFault::Bad(Cause::Count)),
    }
}

// The register that stands first of the words that are left.
fn register(words: &mut Option<&[u8]>) -> Result<Reg, LineFault>
    ensures { Takes result (register_at (parts_in 32 words.old)) (parts_in 32 words.new) }
{
    let word = next_word(words)?;
    match register_of(word) {
        Some(register) => Ok(register),
        None => Err(LineFault::Bad(Cause::Number)),
    }
}

// The number that stands first.
fn number(words: &mut Option<&[u8]>) -> Result<u32, LineFault>
    ensures { Takes result (number_at (parts_in 32 words.old)) (parts_in 32 words.new) }
{
    let word = next_word(words)?;
    match number_of(word) {
        Some(number) => Ok(number),
        None => Err(LineFault::Bad(Cause::Number)),
    }
}

// The bytes that stand first.
fn bytes(alloc: Global, words: &mut Option<&[u8]>) -> Result<Bytes, LineFault>
    ensures { Takes result (bytes_at (parts_in 32 words.old)) (parts_in 32 words.new) }
{
    let word = next_word(words)?;
    hex_word(alloc, word)
}

// The name that stands first.
fn name(alloc: Global, words: &mut Option<&[u8]>) -> Result<Name, LineFault>
    ensures { Takes result (name_at (parts_in 32 words.old)) (parts_in 32 words.new) }
{
    let word = next_word(words)?;
    name_word(alloc, word)
}

// A `new`, by the words behind its verb.
#[tactic(auto, unfolding(crate::specs::Taking::command_at))]
fn birth<L>(alloc: Global, words: &mut Option<&[u8]>) -> Result<Cmd, LineFault>
    ensures { Gives result (command_at verb.New (parts_in 32 words.old)) }
{
    Ok(Cmd::New {
        reg: register(words)?,
        count: number(words)?,
        bytes: bytes(alloc, words)?,
    })
}

// A `load`, by the words behind its verb.
#[tactic(auto, unfolding(crate::specs::Taking::command_at))]
fn load<L>(words: &mut Option<&[u8]>) -> Result<Cmd, LineFault>
    ensures { Gives result (command_at verb.Load (parts_in 32 words.old)) }
{
    Ok(Cmd::Load {
        to: register(words)?,
        reg: register(words)?,
        index: number(words)?,
    })
}

// A `store`, by the words behind its verb.
#[tactic(auto, unfolding(crate::specs::Taking::command_at))]
fn store<L>(words: &mut Option<&[u8]>) -> Result<Cmd, LineFault>
    ensures { Gives result (command_at verb.Store (parts_in 32 words.old)) }
{
    Ok(Cmd::Store {
        reg: register(words)?,
        index: number(words)?,
        value: register(words)?,
    })
}

// A `clear`, by the words behind its verb.
#[tactic(auto, unfolding(crate::specs::Taking::command_at))]
fn clear<L>(words: &mut Option<&[u8]>) -> Result<Cmd, LineFault>
    ensures { Gives result (command_at verb.Clear (parts_in 32 words.old)) }
{
    Ok(Cmd::Clear {
        reg: register(words)?,
        index: number(words)?,
    })
}

// A `data`, by the words behind its verb.
#[tactic(auto, unfolding(crate::specs::Taking::command_at))]
fn show<L>(words: &mut Option<&[u8]>) -> Result<Cmd, LineFault>
    ensures { Gives result (command_at verb.Data (parts_in 32 words.old)) }
{
    Ok(Cmd::Show {
        reg: register(words)?,
    })
}

// A `put`, by the words behind its verb.
#[tactic(auto, unfolding(crate::specs::Taking::command_at))]
fn put<L>(alloc: Global, words: &mut Option<&[u8]>) -> Result<Cmd, LineFault>
    ensures { Gives result (command_at verb.Put (parts_in 32 words.old)) }
{
    Ok(Cmd::Put {
        reg: register(words)?,
        at: number(words)?,
        bytes: bytes(alloc, words)?,
    })
}

// A `copy`, by the words behind its verb.
#[tactic(auto, unfolding(crate::specs::Taking::command_at))]
fn copy<L>(words: &mut Option<&[u8]>) -> Result<Cmd, LineFault>
    ensures { Gives result (command_at verb.Copy (parts_in 32 words.old)) }
{
    Ok(Cmd::Copy {
        to: register(words)?,
        reg: register(words)?,
    })
}

// An `id`, by the words behind its verb.
#[tactic(auto, unfolding(crate::specs::Taking::command_at))]
fn id_of<L>(words: &mut Option<&[u8]>) -> Result<Cmd, LineFault>
    ensures { Gives result (command_at verb.Id (parts_in 32 words.old)) }
{
    Ok(Cmd::IdOf {
        reg: register(words)?,
    })
}

// A `drop`, by the words behind its verb.
#[tactic(auto, unfolding(crate::specs::Taking::command_at))]
fn forget<L>(words: &mut Option<&[u8]>) -> Result<Cmd, LineFault>
    ensures { Gives result (command_at verb.Drop (parts_in 32 words.old)) }
{
    Ok(Cmd::Forget {
        reg: register(words)?,
    })
}

// A `root`, by the words behind its verb.
#[tactic(auto, unfolding(crate::specs::Taking::command_at))]
fn bind<L>(alloc: Global, words: &mut Option<&[u8]>) -> Result<Cmd, LineFault>
    ensures { Gives result (command_at verb.Root (parts_in 32 words.old)) }
{
    Ok(Cmd::Bind {
        name: name(alloc, words)?,
        reg: register(words)?,
    })
}

// An `unroot`, by the words behind its verb.
#[tactic(auto, unfolding(crate::specs::Taking::command_at))]
fn unbind<L>(alloc: Global, words: &mut Option<&[u8]>) -> Result<Cmd, LineFault>
    ensures { Gives result (command_at verb.Unroot (parts_in 32 words.old)) }
{
    Ok(Cmd::Unbind {
        name: name(alloc, words)?,
    })
}

// A `find`, by the words behind its verb.
#[tactic(auto, unfolding(crate::specs::Taking::command_at))]
fn find<L>(alloc: Global, words: &mut Option<&[u8]>) -> Result<Cmd, LineFault>
    ensures { Gives result (command_at verb.Find (parts_in 32 words.old)) }
{
    Ok(Cmd::Find {
        to: register(words)?,
        name: name(alloc, words)?,
    })
}

// A `swap`, by the words behind its verb.
#[tactic(auto, unfolding(crate::specs::Taking::command_at))]
fn swap<L>(words: &mut Option<&[u8]>) -> Result<Cmd, LineFault>
    ensures { Gives result (command_at verb.Swap (parts_in 32 words.old)) }
{
    Ok(Cmd::Swap {
        reg: register(words)?,
        index: number(words)?,
        old: register(words)?,
        value: register(words)?,
    })
}

// The command that a client asks so.
#[tactic(auto, unfolding(crate::specs::Taking::command_at))]
fn command<L>(alloc: Global, verb: Verb, words: &mut Option<&[u8]>) -> Result<Cmd, LineFault>
    ensures { Gives result (command_at verb (parts_in 32 words.old)) }
{
    match verb {
        Verb::New => birth::<L>(alloc, words),
        Verb::Load => load::<L>(words),
        Verb::Store => store::<L>(words),
        Verb::Clear => clear::<L>(words),
        Verb::Data => show::<L>(words),
        Verb::Put => put::<L>(alloc, words),
        Verb::Copy => copy::<L>(words),
        Verb::Id => id_of::<L>(words),
        Verb::Drop => forget::<L>(words),
        Verb::Root => bind::<L>(alloc, words),
        Verb::Unroot => unbind::<L>(alloc, words),
        Verb::Find => find::<L>(alloc, words),
        Verb::Swap => swap::<L>(words),
        Verb::Save => Ok(Cmd::Save),
        Verb::Settle => Ok(Cmd::Settle),
        Verb::Watch => Ok(Cmd::Watch),
        Verb::Close => Ok(Cmd::Close),
        Verb::Unsave => Ok(Cmd::Unsave),
        Verb::Gc | Verb::Flush | Verb::Young => Err(LineFault::Bad(Cause::Count)),
    }
}

// The line that asks for events so.
#[tactic(auto, unfolding(crate::specs::Taking::events_at))]
fn events<L>(verb: Verb, words: &mut Option<&[u8]>) -> Result<Line, LineFault>
    ensures { Gives result (events_at verb (parts_in 32 words.old)) }
{
    match verb {
        Verb::Gc => Ok(Line::Gc(number(words)?)),
        Verb::Flush => Ok(Line::Flush(number(words)?)),
        _ => Err(LineFault::Bad(Cause::Count)),
    }
}

/// The line that is said so by the words that are left. There are as many as stand after such a verb.
#[tactic(auto, unfolding(crate::specs::Taking::asked_at))]
pub(crate) fn line<L>(
    alloc: Global,
    first: First,
    verb: Verb,
    words: Option<&[u8]>,
) -> Result<Line, LineFault>
    ensures { Gives result (asked_at first verb (parts_in 32 words.entry)) }
{
    let mut words = words;
    match first {
        First::Client(client) => {
            let cmd = command::<L>(alloc, verb, &mut words)?;
            Ok(Line::Client { client, cmd })
        }
        First::Bang => events::<L>(verb, &mut words),
    }
}
