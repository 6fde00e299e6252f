//! What the lines of each dialect say.
ghost use Rattle.std.specs.Prelude.{◌≡◌};
ghost use Rattle.pm_script.specs.Lines.{parts_in};
ghost use Rattle.pm_script.specs.Reading.{Gives};
ghost use Rattle.pm_script.specs.Taking.{Asked, asked_at, young_asked_at};
ghost use Rattle.pm_script.specs.Words.{is_in};
ghost use Rattle.pm_script.specs.declared.verb.Dialect.{Dialect as Which};
ghost use Rattle.pm_script.specs.declared.verb.Dialect.TheVariants as dialects;

use crate::command::line;
use crate::fault::LineFault;
use crate::line::{Line, YoungLine};
use crate::verb::{Dialect, First, Verb};
use std::alloc::Global;

/// What a line of one dialect says.
pub(crate) trait Said: Drop {
    /// Which dialect this is.
    ghost dialect: { Which };

    /// What is read of the words behind a first word and a verb.
    ghost asked: { Asked Self };

    /// Whether the dialect has what is named so.
    fn has(verb: Verb) -> bool
        ensures { result ≡ is_in dialect verb };

    /// What is said so by the words that are left. There are as many as stand after such a verb.
    fn read_values(
        alloc: Global,
        first: First,
        verb: Verb,
        words: Option<&[u8]>,
    ) -> Result<Self, LineFault>
        ensures { Gives result (asked first verb (parts_in 32 words.entry)) };
}

impl Said for Line {
    ghost dialect = { dialects.Plain };

    ghost asked = { asked_at };

    fn has(verb: Verb) -> bool {
        verb.is_in(Dialect::Plain)
    }

    fn read_values(
        alloc: Global,
        first: First,
        verb: Verb,
        words: Option<&[u8]>,
    ) -> Result<Line, LineFault> {
        line::<Line>(alloc, first, verb, words)
    }
}

impl Said for YoungLine {
    ghost dialect = { dialects.Young };

    ghost asked = { young_asked_at };

    fn has(verb: Verb) -> bool {
        verb.is_in(Dialect::Young)
    }

    #[tactic(auto, unfolding(crate::specs::Taking::young_asked_at))]
    fn read_values(
        alloc: Global,
        first: First,
        verb: Verb,
        words: Option<&[u8]>,
    ) -> Result<YoungLine, LineFault> {
        match verb {
            Verb::Young => Ok(YoungLine::Young),
            _ => Ok(YoungLine::Base(line::<YoungLine>(alloc, first, verb, words)?)),
        }
    }
}
