ghost use Rattle.std.specs.Prelude.{map, IfOk, IfSome, IfNone};
ghost use Rattle.pm_words.specs.Words.{Spells, SpellsNothing};

use crate::asked::Asked;
use crate::grammar::is_taken;
use crate::reader::asked_of;
use pm_types::NoMemory;
use std::alloc::Global;

// Whether `clap` is not asked: a word is empty or begins with a dash, so it would be read as an option, or the first is
// `help`.
fn is_withheld(words: &[&str]) -> bool {
    let is_help = match words {
        [first, ..] => *first == "help",
        [] => false,
    };
    is_help
        || words
            .iter()
            .any(|word| word.is_empty() || word.as_bytes()[0] == b'-')
}

/// What these words ask for, or none where they ask for nothing.
pub fn read_words(alloc: Global, words: &[&str]) -> Result<Option<Asked>, NoMemory>
    ensures some { IfOk result (λ read. IfSome read (Spells (map (λ word. word.now) words.now))) }
    ensures none { IfOk result (λ read. IfNone read (SpellsNothing (map (λ word. word.now) words.now))) }
{
    // What `clap` answers of other words is not needed: the reader finds the same, and is proved to.
    if !is_withheld(words) {
        is_taken(alloc, words)?;
    }
    Ok(asked_of(words))
}
