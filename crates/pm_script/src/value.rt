ghost use Rattle.std.specs.Prelude.{◌≡◌, ◌+◌, ◌≤◌, ◌==◌, true, false, length, IfOk};
ghost use Rattle.std.specs.List.{list_all};
ghost use Rattle.std.specs.Option.{MatchOption};
ghost use Rattle.std.specs.Str.Parse.{digits_value};
ghost use Rattle.std.specs.Cmp.Lexicographic.{pointwise};
ghost use Rattle.hex.specs.Hex.{decode_of};
ghost use Rattle.pm_script.specs.declared.fault.Cause.TheVariants as causes;
ghost use Rattle.pm_types.specs.declared.limits.TheConstants.{CLIENTS, REGISTERS};
ghost use Rattle.pm_script.specs.Values.{is_digit, is_numeral, number_of, number_below, name_of, some_bytes, hex_of, first_at};
ghost use Rattle.pm_script.specs.Reading.{Finds};

use crate::fault::{Cause, LineFault};
use crate::hexadecimal::decode_into;
use crate::verb::First;
use pm_types::{Bytes, CLIENTS, Name, NameFault, NoMemory, Reg};
use std::alloc::Global;

// The most digits of a number below 2^32.
const NUMBER_DIGITS: usize = 10;

fn is_word(word: &[u8], text: &[u8]) -> bool
    ensures { result ≡ pointwise ◌==◌ word.now text.now }
{
    word == text
}

fn all_digits(word: &[u8]) -> bool
    ensures { result ≡ list_all is_digit word.now }
{
    word.iter().all(|byte| matches!(byte, b'0'..=b'9'))
}

/// Whether a word is a numeral: decimal digits, at least one, with no leading zero.
pub fn is_numeral(word: &[u8]) -> bool
    ensures { result ≡ is_numeral word.now }
{
    all_digits(word) && !word.is_empty() && (word[0] != b'0' || word.len() == 1)
}

// What a byte is worth as a digit.
fn digit(byte: u8) -> Option<u64>
    ensures { MatchOption result (is_digit byte ≡ false) (λ worth. (worth ≤ 9) × (byte ≡ 48 + worth)) }
{
    match byte {
        b'0'..=b'9' => Some(u64::from(byte - b'0')),
        _ => None,
    }
}

// The number that digits write, of which there are ten at most. `None` where a byte is no digit.
fn digits(word: &[u8]) -> Option<u64>
    requires { length word.now ≤ NUMBER_DIGITS }
    ensures { MatchOption result (list_all is_digit word.now ≡ false)
        (λ value. (list_all is_digit word.now ≡ true) × (value ≡ digits_value 10 word.now)) }
{
    let mut value = 0;
    for byte in word {
        let worth = digit(*byte)?;
        value = value * 10 + worth;
    }
    Some(value)
}

/// The number that a word spells: digits with no leading zero, of a value below 2^32. `None` where it spells none.
pub fn number_of(word: &[u8]) -> Option<u32>
    ensures { result ≡ number_of word.now }
{
    let first = *word.first()?;
    if word.len() > NUMBER_DIGITS {
        return None;
    }
    if first == b'0' && word.len() > 1 {
        return None;
    }
    let value = digits(word)?;
    if value <= u64::from(u32::MAX) {
        Some(value as u32)
    } else {
        None
    }
}

#[tactic(auto, unfolding(crate::specs::Values::number_below))]
fn client(word: &[u8]) -> Option<u32>
    ensures { result ≡ number_below CLIENTS word.now }
{
    let number = number_of(word)?;
    if number < CLIENTS { Some(number) } else { None }
}

/// The register that a word spells, 0 to 1,023. `None` where it spells none.
#[tactic(auto, unfolding(crate::specs::Values::number_below))]
pub fn register_of(word: &[u8]) -> Option<Reg>
    ensures { result ≡ number_below REGISTERS word.now }
{
    let number = number_of(word)?;
    Reg::new(number)
}

/// The word that a line begins with.
#[tactic(auto, unfolding(crate::specs::Values::first_at))]
pub(crate) fn first(word: &[u8]) -> Option<First>
    ensures { result ≡ first_at word.now }
{
    if is_word(word, b"!") {
        Some(First::Bang)
    } else {
        let client = client(word)?;
        Some(First::Client(client))
    }
}

// The bytes that pairs of digits spell, one pair at least.
fn pairs(alloc: Global, word: &[u8]) -> Result<Bytes, LineFault>
    ensures { Finds result causes.Hex (some_bytes (decode_of word.now)) }
{
    if word.is_empty() || word.len() % 2 != 0 {
        return Err(LineFault::Bad(Cause::Hex));
    }
    let mut bytes = vec![in alloc; 0u8; word.len() / 2]?;
    if decode_into(word, bytes.as_mut_slice()) {
        Ok(Bytes::from_vec(bytes))
    } else {
        Err(LineFault::Bad(Cause::Hex))
    }
}

/// The bytes that a word spells: a dash for none, or pairs of digits.
pub(crate) fn hex_word(alloc: Global, word: &[u8]) -> Result<Bytes, LineFault>
    ensures { Finds result causes.Hex (hex_of word.now) }
{
    if is_word(word, b"-") {
        Ok(Bytes::from_vec(Vec::new(alloc)))
    } else {
        pairs(alloc, word)
    }
}

/// The bytes that a word spells: none for a dash, or those of pairs of hexadecimal digits, in either case. `None` where it
/// spells none.
#[tactic(auto, using(crate::proofs::ResultSteps::some_ok, crate::proofs::ResultSteps::none_err))]
pub fn read_hex(alloc: Global, word: &[u8]) -> Result<Option<Bytes>, NoMemory>
    ensures { IfOk result (λ found. found ≡ hex_of word.now) }
{
    match hex_word(alloc, word) {
        Ok(bytes) => Ok(Some(bytes)),
        Err(LineFault::Bad(_)) => Ok(None),
        Err(LineFault::Memory(refused)) => Err(refused),
    }
}

/// The name that a word is.
#[tactic(auto, using(crate::proofs::NameTests::name_passes, crate::proofs::NameTests::fault_fails))]
pub(crate) fn name_word(alloc: Global, word: &[u8]) -> Result<Name, LineFault>
    ensures { Finds result causes.Name (name_of word.now) }
{
    match Name::read(alloc, word) {
        Ok(name) => Ok(name),
        Err(NameFault::Memory(refused)) => Err(LineFault::Memory(refused)),
        Err(_) => Err(LineFault::Bad(Cause::Name)),
    }
}
