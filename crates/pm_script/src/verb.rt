ghost use Rattle.std.specs.Prelude.{◌≡◌, ◌==◌, ◌&&◌};
ghost use Rattle.std.specs.List.{find};
ghost use Rattle.std.specs.Cmp.Lexicographic.{pointwise};
ghost use Rattle.pm_script.specs.Words.{word_of, kinds, is_event, is_in, may_follow, belongs};
ghost use Rattle.pm_script.specs.Values.{verb_at, verbs_of};

use crate::said::Said;

/// Which lines are read.
#[derive(Clone, Copy, Debug, PartialEq, Eq)]
pub(crate) enum Dialect {
    /// Those of a script.
    Plain,
    /// Those of a script for a run with a nursery: `! young` beside them, and no `watch`.
    Young,
}

/// What a line asks, by the word that names it.
#[derive(Clone, Copy, Debug, PartialEq, Eq)]
pub(crate) enum Verb {
    New,
    Load,
    Store,
    Clear,
    Data,
    Put,
    Copy,
    Id,
    Drop,
    Root,
    Unroot,
    Find,
    Save,
    Settle,
    Watch,
    Close,
    Swap,
    Unsave,
    Gc,
    Flush,
    Young,
}

/// The kinds of words that stand after it.
#[derive(Clone, Copy, Debug, PartialEq, Eq)]
pub(crate) enum Kind {
    /// A number from 0 to 1023.
    Register,
    /// A number below 2^32.
    Number,
    /// Pairs of hexadecimal digits, or a dash for no byte.
    Hex,
    /// The name of a root.
    Name,
}

/// The word that a line begins with.
#[derive(Clone, Copy, Debug, PartialEq, Eq)]
pub(crate) enum First {
    /// A client, 0 to 7.
    Client(u32),
    /// The exclamation mark, for what no client asks.
    Bang,
}

impl Verb {
    // The word that names it.
    fn word(self) -> &'static [u8]
        ensures { result.now ≡ word_of self }
    {
        match self {
            Verb::New => b"new",
            Verb::Load => b"load",
            Verb::Store => b"store",
            Verb::Clear => b"clear",
            Verb::Data => b"data",
            Verb::Put => b"put",
            Verb::Copy => b"copy",
            Verb::Id => b"id",
            Verb::Drop => b"drop",
            Verb::Root => b"root",
            Verb::Unroot => b"unroot",
            Verb::Find => b"find",
            Verb::Save => b"save",
            Verb::Settle => b"settle",
            Verb::Watch => b"watch",
            Verb::Close => b"close",
            Verb::Swap => b"swap",
            Verb::Unsave => b"unsave",
            Verb::Gc => b"gc",
            Verb::Flush => b"flush",
            Verb::Young => b"young",
        }
    }

    /// The kinds of the words after it, from left to right.
    pub fn kinds(self) -> &'static [Kind]
        ensures { result.now ≡ kinds self }
    {
        match self {
            Verb::New | Verb::Put => &[Kind::Register, Kind::Number, Kind::Hex],
            Verb::Load => &[Kind::Register, Kind::Register, Kind::Number],
            Verb::Store => &[Kind::Register, Kind::Number, Kind::Register],
            Verb::Clear => &[Kind::Register, Kind::Number],
            Verb::Data | Verb::Id | Verb::Drop => &[Kind::Register],
            Verb::Copy => &[Kind::Register, Kind::Register],
            Verb::Root => &[Kind::Name, Kind::Register],
            Verb::Unroot => &[Kind::Name],
            Verb::Find => &[Kind::Register, Kind::Name],
            Verb::Save | Verb::Settle | Verb::Watch | Verb::Close | Verb::Unsave | Verb::Young =>
                &[],
            Verb::Swap => &[Kind::Register, Kind::Number, Kind::Register, Kind::Register],
            Verb::Gc | Verb::Flush => &[Kind::Number],
        }
    }

    // Whether it is asked after `!`, and by no client.
    fn is_event(self) -> bool
        ensures { result ≡ is_event self }
    {
        matches!(self, Verb::Gc | Verb::Flush | Verb::Young)
    }

    // Those that are named by so many bytes.
    fn of_length(bytes: usize) -> &'static [Verb]
        ensures { result.now ≡ verbs_of bytes }
    {
        match bytes {
            2 => &[Verb::Id, Verb::Gc],
            3 => &[Verb::New, Verb::Put],
            4 => &[
                Verb::Load,
                Verb::Data,
                Verb::Copy,
                Verb::Drop,
                Verb::Root,
                Verb::Find,
                Verb::Save,
                Verb::Swap,
            ],
            5 => &[
                Verb::Store,
                Verb::Clear,
                Verb::Watch,
                Verb::Close,
                Verb::Flush,
                Verb::Young,
            ],
            6 => &[Verb::Unroot, Verb::Settle, Verb::Unsave],
            _ => &[],
        }
    }

    /// Whether a dialect has it.
    pub fn is_in(self, dialect: Dialect) -> bool
        ensures { result ≡ is_in dialect self }
    {
        match dialect {
            Dialect::Plain => !matches!(self, Verb::Young),
            Dialect::Young => !matches!(self, Verb::Watch),
        }
    }

    // Whether it may be asked after that first word.
    fn may_follow(self, first: First) -> bool
        ensures { result ≡ may_follow first self }
    {
        match first {
            First::Client(_) => !self.is_event(),
            First::Bang => self.is_event(),
        }
    }

    // Whether this word names it, and it may be asked after that first word in the dialect.
    fn is_named<L: Said>(self, first: First, word: &[u8]) -> bool
        ensures { result ≡ (pointwise ◌==◌ word.now (word_of self) && belongs L.dialect first self) }
    {
        word == self.word() && L::has(self) && self.may_follow(first)
    }

    // The first of these that the word names after that first word.
    fn read_among<L: Said>(verbs: &[Verb], first: First, word: &[u8]) -> Option<Verb>
        ensures { result ≡ find (λ verb. pointwise ◌==◌ word.now (word_of verb) && belongs L.dialect first verb) verbs.now }
    {
        verbs
            .iter()
            .copied()
            .find(|verb| verb.is_named::<L>(first, word))
    }

    /// What the word names, of what may be asked after that first word in the dialect.
    pub fn read<L: Said>(first: First, word: &[u8]) -> Option<Verb>
        ensures { result ≡ verb_at L.dialect first word.now }
    {
        Verb::read_among::<L>(Verb::of_length(word.len()), first, word)
    }
}
