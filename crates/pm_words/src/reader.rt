ghost use Rattle.std.specs.Prelude.{◌≡◌, ◌<◌, ◌∷◌, [], List, ℕ, map, decimal, codes, IfSome, IfNone, true, false};
ghost use Rattle.pm_words.specs.Words.{AreShip, EndsRun, IsFile, IsIdentity, IsNumber, IsTurns, Spells, SpellsAlone, SpellsNoneAlone, SpellsNothing};

use crate::asked::Asked;
use crate::command::Command;
use crate::place::choice_of;
use itoa::Buffer;
use pm_types::MOST_TURNS;

// Whether a word is a file's name: it is not empty, and does not begin with a dash.
pub(crate) fn is_file(word: &str) -> bool
    ensures yes { result ≡ true → IsFile word.now }
    ensures no { result ≡ false → IsFile word.now → ⊥ }
{
    match word.as_bytes() {
        [] => false,
        [first, ..] => *first != b'-',
    }
}

// Whether a word is this number in decimal digits, without a sign or a leading zero.
fn is_spelled(word: &str, number: u32) -> bool
    ensures yes { result ≡ true → word.now ≡ decimal number }
    ensures no { result ≡ false → word.now ≡ decimal number → ⊥ }
{
    let mut buffer = Buffer::new();
    buffer.format(number) == word
}

// The number of 32 bits that a word is.
fn number(word: &str) -> Option<u32>
    ensures some { IfSome result (IsNumber word.now) }
    ensures none { IfNone result ((number : ℕ) → IsNumber word.now number → ⊥) }
{
    match word.parse::<u32>() {
        Ok(number) => {
            if is_spelled(word, number) {
                Some(number)
            } else {
                None
            }
        }
        Err(_) => None,
    }
}

// The number of turns that a word is.
fn turns(word: &str) -> Option<u32>
    ensures some { IfSome result (IsTurns word.now) }
    ensures none { IfNone result ((turns : ℕ) → IsTurns word.now turns → ⊥) }
{
    let number = number(word)?;
    if number <= MOST_TURNS {
        Some(number)
    } else {
        None
    }
}

// The identity that a word is.
fn identity(word: &str) -> Option<u32>
    ensures some { IfSome result (IsIdentity word.now) }
    ensures none { IfNone result ((id : ℕ) → IsIdentity word.now id → ⊥) }
{
    let number = number(word)?;
    if number > 0 { Some(number) } else { None }
}

// The command of two words.
fn of_two(verb: &str, file: &str) -> Option<Command>
    ensures some { IfSome result (SpellsAlone (verb.now ∷ file.now ∷ [])) }
    ensures none { IfNone result (SpellsNoneAlone (verb.now ∷ file.now ∷ [])) }
{
    if !is_file(file) {
        None
    } else if verb == "init" {
        Some(Command::Init)
    } else if verb == "inspect" {
        Some(Command::Inspect)
    } else if verb == "dump" {
        Some(Command::Dump)
    } else if verb == "restore" {
        Some(Command::Restore)
    } else {
        None
    }
}

// The command of three words of which the first is `make`.
fn of_make(first: &str, second: &str) -> Option<Command>
    ensures some { IfSome result (SpellsAlone (codes "make" ∷ first.now ∷ second.now ∷ [])) }
    ensures none { IfNone result (SpellsNoneAlone (codes "make" ∷ first.now ∷ second.now ∷ [])) }
{
    let seed = number(first)?;
    let turns = turns(second)?;
    Some(Command::Make { seed, turns })
}

// The command of three words of which the first is `why`.
fn of_why(file: &str, word: &str) -> Option<Command>
    ensures some { IfSome result (SpellsAlone (codes "why" ∷ file.now ∷ word.now ∷ [])) }
    ensures none { IfNone result (SpellsNoneAlone (codes "why" ∷ file.now ∷ word.now ∷ [])) }
{
    if !is_file(file) {
        return None;
    }
    let id = identity(word)?;
    Some(Command::Why { id })
}

// The command of `run`, FILE and MODE, whatever may stand behind them.
fn of_run(file: &str, mode: &str) -> Option<Command>
    ensures some { IfSome result (λ command. (rest : List (List ℕ)) → EndsRun rest
        → SpellsAlone (codes "run" ∷ file.now ∷ mode.now ∷ rest) command) }
    ensures none { IfNone result ((rest : List (List ℕ)) → SpellsNoneAlone (codes "run" ∷ file.now ∷ mode.now ∷ rest)) }
{
    if !is_file(file) {
        None
    } else if mode == "serial" {
        Some(Command::Run)
    } else if mode == "threads" {
        Some(Command::RunThreads)
    } else if mode == "seats" {
        Some(Command::RunSeats)
    } else if mode == "young" {
        Some(Command::RunYoung)
    } else {
        None
    }
}

// The command of `run` with a third word behind FILE and MODE.
fn of_placed_run(file: &str, mode: &str, place: &str) -> Option<Command>
    ensures some { IfSome result (SpellsAlone (codes "run" ∷ file.now ∷ mode.now ∷ place.now ∷ [])) }
    ensures none { IfNone result (SpellsNoneAlone (codes "run" ∷ file.now ∷ mode.now ∷ place.now ∷ [])) }
{
    if choice_of(place).is_some() {
        of_run(file, mode)
    } else {
        None
    }
}

// The command of three words.
fn of_three(verb: &str, second: &str, third: &str) -> Option<Command>
    ensures some { IfSome result (SpellsAlone (verb.now ∷ second.now ∷ third.now ∷ [])) }
    ensures none { IfNone result (SpellsNoneAlone (verb.now ∷ second.now ∷ third.now ∷ [])) }
{
    if verb == "make" {
        of_make(second, third)
    } else if verb == "why" {
        of_why(second, third)
    } else if verb == "run" {
        of_run(second, third)
    } else {
        None
    }
}

// The command of four words of which the first is `trial`.
fn of_trial(file: &str, first: &str, second: &str) -> Option<Command>
    ensures some { IfSome result (SpellsAlone (codes "trial" ∷ file.now ∷ first.now ∷ second.now ∷ [])) }
    ensures none { IfNone result (SpellsNoneAlone (codes "trial" ∷ file.now ∷ first.now ∷ second.now ∷ [])) }
{
    if !is_file(file) {
        return None;
    }
    let seed = number(first)?;
    let turns = turns(second)?;
    Some(Command::Trial { seed, turns })
}

// The command of four words.
fn of_four(verb: &str, file: &str, third: &str, fourth: &str) -> Option<Command>
    ensures some { IfSome result (SpellsAlone (verb.now ∷ file.now ∷ third.now ∷ fourth.now ∷ [])) }
    ensures none { IfNone result (SpellsNoneAlone (verb.now ∷ file.now ∷ third.now ∷ fourth.now ∷ [])) }
{
    if verb == "trial" {
        of_trial(file, third, fourth)
    } else if verb == "run" {
        of_placed_run(file, third, fourth)
    } else {
        None
    }
}

// The command of these words, or none where they are no command's.
fn command_of(words: &[&str]) -> Option<Command>
    ensures some { IfSome result (SpellsAlone (map (λ word. word.now) words.now)) }
    ensures none { IfNone result (SpellsNoneAlone (map (λ word. word.now) words.now)) }
{
    match words {
        [verb, file] => of_two(verb, file),
        [verb, second, third] => of_three(verb, second, third),
        [verb, file, third, fourth] => of_four(verb, file, third, fourth),
        _ => None,
    }
}

// Whether three words are those of `ship` with the names of two files.
fn is_ship_of(verb: &str, file: &str, other: &str) -> bool
    ensures yes { result ≡ true → AreShip (verb.now ∷ file.now ∷ other.now ∷ []) }
    ensures no { result ≡ false → AreShip (verb.now ∷ file.now ∷ other.now ∷ []) → ⊥ }
{
    verb == "ship" && is_file(file) && is_file(other)
}

// Whether the words are those of `ship`.
fn is_ship(words: &[&str]) -> bool
    ensures yes { result ≡ true → AreShip (map (λ word. word.now) words.now) }
    ensures no { result ≡ false → AreShip (map (λ word. word.now) words.now) → ⊥ }
{
    match words {
        [verb, file, other] => is_ship_of(verb, file, other),
        _ => false,
    }
}

/// What these words ask for, or none where they ask for nothing.
#[tactic(auto, using(crate::proofs::Commands::nothing_asked))]
pub(crate) fn asked_of(words: &[&str]) -> Option<Asked>
    ensures some { IfSome result (Spells (map (λ word. word.now) words.now)) }
    ensures none { IfNone result (SpellsNothing (map (λ word. word.now) words.now)) }
{
    if is_ship(words) {
        return Some(Asked::Ship);
    }
    let command = command_of(words)?;
    Some(Asked::Alone(command))
}
