ghost use Rattle.std.specs.Prelude.{◌≡◌, ◌==◌, ◌∷◌, ◌<◌, [], true, length, nat_eq, count_by, ◌≤◌, ◌^◌};
ghost use Rattle.std.specs.List.{list_all};
ghost use Rattle.std.specs.Option.{MatchOption, option_map};
ghost use Rattle.std.specs.Cmp.Lexicographic.{pointwise};
ghost use Rattle.std.specs.Str.Parse.{digits_value};
ghost use Rattle.pm_types.specs.Counts.{capped};
ghost use Rattle.pm_script.specs.Values.{is_numeral};
ghost use Rattle.pm_dump.specs.Read.{words_in};
ghost use Rattle.pm_dump.specs.Reading.{numeral_at};

use pm_script::{is_numeral, take_part};

/// The first of the words that are left, and those behind it.
pub(crate) fn take_word(words: Option<&[u8]>) -> Option<(&[u8], Option<&[u8]>)>
    ensures { MatchOption result (words_in words.entry ≡ [])
        (λ taken. words_in words.entry ≡ taken.0.now ∷ words_in taken.1) }
{
    take_part(words, b' ')
}

/// The first two of the words that are left, and those behind them.
pub(crate) fn two_words(words: Option<&[u8]>) -> Option<(&[u8], &[u8], Option<&[u8]>)>
    ensures { MatchOption result (length (words_in words.entry) < 2)
        (λ taken. words_in words.entry ≡ taken.0.now ∷ taken.1.now ∷ words_in taken.2) }
{
    match take_word(words) {
        Some((first, words)) => match take_word(words) {
            Some((second, words)) => Some((first, second, words)),
            None => None,
        },
        None => None,
    }
}

/// The first three of the words that are left, and those behind them.
pub(crate) fn three_words(words: Option<&[u8]>) -> Option<(&[u8], &[u8], &[u8], Option<&[u8]>)>
    ensures { MatchOption result (length (words_in words.entry) < 3)
        (λ taken. words_in words.entry ≡ taken.0.now ∷ taken.1.now ∷ taken.2.now ∷ words_in taken.3) }
{
    match two_words(words) {
        Some((first, second, words)) => match take_word(words) {
            Some((third, words)) => Some((first, second, third, words)),
            None => None,
        },
        None => None,
    }
}

/// Whether no word is left.
pub(crate) fn is_spent(words: Option<&[u8]>) -> bool
    ensures { result ≡ (length (words_in words.entry) == 0) }
{
    match words {
        Some(_text) => false,
        None => true,
    }
}

/// How many words are left.
pub(crate) fn count_words(words: Option<&[u8]>) -> u64
    requires { length (words_in words) ≤ 2 ^ 32 }
    ensures { result ≡ length (words_in words.entry) }
{
    match words {
        Some(text) => spaces(text) as u64 + 1,
        None => 0,
    }
}

// How many spaces a text has.
fn spaces(text: &[u8]) -> usize
    ensures { result ≡ count_by (λ b. nat_eq b 32) text.now }
{
    text.iter().filter(|byte| **byte == b' ').count()
}

/// Whether each of the words that are left is a numeral.
pub(crate) fn are_numerals(words: Option<&[u8]>) -> bool
    ensures { result ≡ list_all is_numeral (words_in words.entry) }
{
    let mut left = words;
    while let Some((word, rest)) = take_word(left) {
        if !is_numeral(word) {
            return false;
        }
        left = rest;
    }
    true
}

/// Whether the word is this one.
pub(crate) fn is_word(word: &[u8], text: &[u8]) -> bool
    ensures { result ≡ pointwise ◌==◌ word.now text.now }
{
    word == text
}

// The value of a numeral, or the greatest one.
fn value_of(numeral: &[u8]) -> u64
    requires { is_numeral numeral.now ≡ true }
    ensures { result ≡ capped (digits_value 10 numeral.now) }
{
    match str::from_utf8(numeral) {
        Ok(text) => match text.parse::<u64>() {
            Ok(value) => value,
            Err(_) => u64::MAX,
        },
        Err(_) => u64::MAX,
    }
}

/// The number that a word spells, or the greatest one of 64 bits where it is more.
pub(crate) fn numeral(word: &[u8]) -> Option<u64>
    ensures { result ≡ option_map capped (numeral_at word.now) }
{
    if is_numeral(word) {
        Some(value_of(word))
    } else {
        None
    }
}
