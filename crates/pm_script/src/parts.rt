ghost use Rattle.std.specs.Prelude.{◌≡◌, ◌∷◌, ◌<◌, ◌+◌, [], length, take, nat_eq, count_by};
ghost use Rattle.std.specs.List.{slice_split, position};
ghost use Rattle.std.specs.Option.{MatchOption};
ghost use Rattle.pm_script.specs.Lines.{parts_in};

use memchr::memchr;

/// What stands before the first mark of a text, and what stands behind it; nothing where the text has no mark.
#[tactic(auto, using(crate::proofs::CutLemmas::inside))]
pub fn cut(text: &[u8], mark: u8) -> Option<(&[u8], &[u8])>
    ensures parts { MatchOption result (slice_split (λ b. nat_eq b mark) text.now ≡ text.now ∷ [])
        (λ cut. slice_split (λ b. nat_eq b mark) text.now ≡ cut.0.now ∷ slice_split (λ b. nat_eq b mark) cut.1.now) }
    ensures shorter { MatchOption result (Unit {0}) (λ cut. length cut.0.now + length cut.1.now < length text.now) }
{
    match memchr(mark, text) {
        Some(at) => Some((&text[..at], &text[at + 1..])),
        None => None,
    }
}

/// The first of the parts between marks that are left, and those behind it; nothing where none is left. Of a whole text
/// one part more is left than it has marks.
pub fn take_part(parts: Option<&[u8]>, mark: u8) -> Option<(&[u8], Option<&[u8]>)>
    ensures { MatchOption result (parts_in mark parts.entry ≡ [])
        (λ taken. parts_in mark parts.entry ≡ taken.0.now ∷ parts_in mark taken.1) }
{
    let text = parts?;
    match cut(text, mark) {
        Some((part, rest)) => Some((part, Some(rest))),
        None => Some((text, None)),
    }
}

// Of so many bytes each is looked at by itself: a search in few of them costs more than that.
const FEW: usize = 16;

// How many times a byte stands in a text of few bytes.
fn count_in_few(text: &[u8], mark: u8) -> usize
    ensures { result ≡ count_by (λ b. nat_eq b mark) text.now }
{
    let mut count = 0;
    for byte in text {
        if *byte == mark {
            count += 1;
        }
    }
    count
}

/// How many times a byte stands in a text. In a longer one each search begins behind the mark that was found before.
pub(crate) fn count_byte(text: &[u8], mark: u8) -> usize
    ensures { result ≡ count_by (λ b. nat_eq b mark) text.now }
{
    if text.len() <= FEW {
        return count_in_few(text, mark);
    }
    let mut count = 0;
    let mut rest = text;
    while let Some((_, after)) = cut(rest, mark) {
        count += 1;
        rest = after;
    }
    count
}

// The first few bytes of a text, or all of fewer.
fn first_few(text: &[u8]) -> &[u8]
    ensures { result.now ≡ take FEW text.now }
{
    if text.len() <= FEW {
        return text;
    }
    &text[..FEW]
}

// Where a space stands first among the first few bytes of a text.
fn near_space(text: &[u8]) -> Option<usize>
    ensures { result ≡ position (λ b. nat_eq b 32) (take FEW text.now) }
{
    first_few(text).iter().position(|byte| *byte == b' ')
}

/// The first of the words between spaces that are left, and those behind it, as `take_part` gives them. Most words end
/// within a few bytes.
#[tactic(auto, using(crate::proofs::CutLemmas::within_few))]
pub fn take_word(words: Option<&[u8]>) -> Option<(&[u8], Option<&[u8]>)>
    ensures { MatchOption result (parts_in 32 words.entry ≡ [])
        (λ taken. parts_in 32 words.entry ≡ taken.0.now ∷ parts_in 32 taken.1) }
{
    let text = words?;
    if let Some(at) = near_space(text) {
        return Some((&text[..at], Some(&text[at + 1..])));
    }
    if text.len() <= FEW {
        return Some((text, None));
    }
    take_part(words, b' ')
}
