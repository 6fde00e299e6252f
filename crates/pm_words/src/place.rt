ghost use Rattle.std.specs.Prelude.{◌≡◌, ◌∷◌, [], map, IfSome, IfNone, true, false};
ghost use Rattle.pm_words.specs.declared.chosen.Chosen.{Chosen as Choice};
ghost use Rattle.pm_words.specs.Words.{IsMode, IsPlace, HasPlace, HasNoPlace, Places};

use crate::chosen::Chosen;
use crate::reader::is_file;

// Whether a word is a MODE.
fn is_mode(word: &str) -> bool
    ensures yes { result ≡ true → IsMode word.now }
    ensures no { result ≡ false → IsMode word.now → ⊥ }
{
    word == "serial" || word == "threads" || word == "seats" || word == "young"
}

// The choice of which a word is the PLACE.
pub(crate) fn choice_of(word: &str) -> Option<Chosen>
    ensures some { IfSome result (IsPlace word.now) }
    ensures none { IfNone result ((chosen : Choice) → IsPlace word.now chosen → ⊥) }
{
    if word == "first" {
        Some(Chosen::First)
    } else if word == "last" {
        Some(Chosen::Last)
    } else if word == "middle" {
        Some(Chosen::Middle)
    } else {
        None
    }
}

// The choice of four words that are those of a run with a PLACE.
fn choice_of_four(verb: &str, file: &str, mode: &str, place: &str) -> Option<Chosen>
    ensures some { IfSome result (HasPlace (verb.now ∷ file.now ∷ mode.now ∷ place.now ∷ [])) }
    ensures none { IfNone result (HasNoPlace (verb.now ∷ file.now ∷ mode.now ∷ place.now ∷ [])) }
{
    if verb == "run" && is_file(file) && is_mode(mode) {
        choice_of(place)
    } else {
        None
    }
}

// The choice of words that are those of a run with a PLACE.
fn given(words: &[&str]) -> Option<Chosen>
    ensures some { IfSome result (HasPlace (map (λ word. word.now) words.now)) }
    ensures none { IfNone result (HasNoPlace (map (λ word. word.now) words.now)) }
{
    match words {
        [verb, file, mode, place] => choice_of_four(verb, file, mode, place),
        _ => None,
    }
}

/// Which train the words choose: what their PLACE says, where they are those of a run with a PLACE, and else the first.
pub fn read_place(words: &[&str]) -> Chosen
    ensures places { Places (map (λ word. word.now) words.now) result }
    ensures alone { (chosen : Choice) → Places (map (λ word. word.now) words.now) chosen → chosen ≡ result }
{
    given(words).unwrap_or(Chosen::First)
}
