ghost use Rattle.std.specs.Prelude.{◌≡◌, ◌==◌};
ghost use Rattle.std.specs.Cmp.Lexicographic.{pointwise};
ghost use Rattle.pm_peer.specs.Questions.{question_at};

/// What may be asked behind an exclamation mark, beside what a script asks there.
#[derive(Clone, Copy, Debug, PartialEq, Eq)]
pub(crate) enum Question {
    Look,
    Name,
    Count,
    Watch,
}

/// Whether a word has these bytes.
pub(crate) fn is_word(word: &[u8], text: &[u8]) -> bool
    ensures { result ≡ pointwise ◌==◌ word.now text.now }
{
    word == text
}

/// The question that a word names.
pub(crate) fn named_question(word: &[u8]) -> Option<Question>
    ensures { result ≡ question_at word.now }
{
    if is_word(word, b"look") {
        Some(Question::Look)
    } else if is_word(word, b"name") {
        Some(Question::Name)
    } else if is_word(word, b"count") {
        Some(Question::Count)
    } else if is_word(word, b"watch") {
        Some(Question::Watch)
    } else {
        None
    }
}
