ghost use Rattle.std.specs.Prelude.{◌≡◌, ◌<◌, ◌≤◌, ◌-◌, slice_get, ◌∷◌, [], IsTrue, ◌↔◌, ◌^◌, IsSome, true, false, length, map, Option, Some, None, IfOk, IfErr, OnOk};
ghost use Rattle.std.specs.Option.{MatchOption, option_map};
ghost use Rattle.pm_types.specs.Counts.{capped};
ghost use Rattle.pm_dump.specs.Read.{words_in, before_in, AreKept, ReadsLine, FailsLine, ReadsWords, FailsWords, LacksForm, IsHead, IsRoot, IsObject, PutsFields, FailsFields, LacksName, IsAbovePlaces, LacksFields, HasFields, IsAboveRoots, root_shown};
ghost use Rattle.pm_dump.specs.Reading.{some_number, id_at, fields_at, object_at, root_at, end_at, head_at, line_at};
ghost use Rattle.pm_script.specs.Values.{name_of, hex_of};
ghost use Rattle.pm_types.specs.declared.limits.TheConstants.{END_ID, SOURCE_BYTES};

use crate::fault::{DumpCause, LineFault};
use crate::parts::{DumpRoot, Parts, Place};
use crate::words::{
    are_numerals, count_words, is_spent, is_word, numeral, take_word, three_words, two_words,
};
use pm_script::read_hex;
use pm_types::{Bytes, END_ID, FIELDS, Name, NameFault, OBJECT_BYTES, ROOTS};
use std::alloc::Global;
use std::cmp::Ordering;

// The identity that a word spells, or the greatest number of 64 bits where it is more.
fn identity(word: &[u8]) -> Option<u64>
    ensures { result ≡ option_map capped (id_at word.now) }
{
    let number = numeral(word)?;
    if number > 0 { Some(number) } else { None }
}

// The number of the words `dump`, `1` and one more, behind which none are left.
fn head_parts(dump: &[u8], version: &[u8], number: &[u8], rest: Option<&[u8]>) -> Option<u64>
    ensures { MatchOption result (head_at (dump.now ∷ version.now ∷ number.now ∷ words_in rest.entry) ≡ None)
        (λ next. IsHead (dump.now ∷ version.now ∷ number.now ∷ words_in rest.entry) next) }
{
    if !is_spent(rest) {
        return None;
    }
    if !is_word(dump, b"dump") {
        return None;
    }
    if !is_word(version, b"1") {
        return None;
    }
    identity(number)
}

// The number behind `pmos`: `dump`, `1`, and one word more.
fn head_number(words: Option<&[u8]>) -> Option<u64>
    ensures { MatchOption result (head_at (words_in words.entry) ≡ None)
        (λ number. IsHead (words_in words.entry) number) }
{
    match three_words(words) {
        Some((dump, version, number, rest)) => head_parts(dump, version, number, rest),
        None => None,
    }
}

// The words behind `pmos`.
fn read_head(parts: &mut Parts, words: Option<&[u8]>) -> Result<(), LineFault>
    requires { AreKept parts.old }
    ensures ok { OnOk result (ReadsWords (before_in parts.old) (head_at (words_in words.entry)) (before_in parts.new)) }
    ensures kept { OnOk result (AreKept parts.new) }
    ensures err { IfErr result (FailsWords (before_in parts.old) (head_at (words_in words.entry))) }
{
    let Some(next) = head_number(words) else {
        return Err(LineFault::Bad(DumpCause::Form));
    };
    if parts.next > 0 {
        return Err(LineFault::Bad(DumpCause::Form));
    }
    if next > END_ID {
        return Err(LineFault::Bad(DumpCause::Limit));
    }
    parts.next = next;
    Ok(())
}

// Whether a name or the end may stand behind what was read.
fn is_open(parts: &Parts) -> bool
    ensures { IsTrue result ↔ ((0 < parts.now.next) × (parts.now.ended ≡ false)) }
{
    parts.next > 0 && !parts.ended
}

// The words behind `end`.
fn read_end(parts: &mut Parts, words: Option<&[u8]>) -> Result<(), LineFault>
    requires { AreKept parts.old }
    ensures ok { OnOk result (ReadsWords (before_in parts.old) (end_at (words_in words.entry)) (before_in parts.new)) }
    ensures kept { OnOk result (AreKept parts.new) }
    ensures err { IfErr result (FailsWords (before_in parts.old) (end_at (words_in words.entry))) }
{
    if !is_spent(words) {
        return Err(LineFault::Bad(DumpCause::Form));
    }
    if !is_open(parts) {
        return Err(LineFault::Bad(DumpCause::Form));
    }
    parts.ended = true;
    Ok(())
}

// The name that a word is.
#[tactic(auto, using(crate::proofs::LineLemmas::no_name))]
fn read_name(alloc: Global, word: &[u8]) -> Result<Name, LineFault>
    ensures ok { IfOk result (λ name. name_of word.now ≡ Some name) }
    ensures err { IfErr result (LacksName (name_of word.now)) }
{
    match Name::read(alloc, word) {
        Ok(name) => Ok(name),
        Err(NameFault::Memory(refused)) => Err(LineFault::Memory(refused)),
        Err(_) => Err(LineFault::Bad(DumpCause::Form)),
    }
}

// The name and the number that two words are.
fn root_parts(alloc: Global, name: &[u8], number: &[u8]) -> Result<(Name, u64), LineFault>
    ensures ok { IfOk result (λ root. IsRoot (name.now ∷ number.now ∷ []) root.0 root.1) }
    ensures err { IfErr result (LacksForm (root_at (name.now ∷ number.now ∷ []))) }
{
    match identity(number) {
        Some(id) => match read_name(alloc, name) {
            Ok(name) => Ok((name, id)),
            Err(fault) => Err(fault),
        },
        None => Err(LineFault::Bad(DumpCause::Form)),
    }
}

// The name and the number behind `root`.
fn root_words(alloc: Global, words: Option<&[u8]>) -> Result<(Name, u64), LineFault>
    ensures ok { IfOk result (λ root. IsRoot (words_in words.entry) root.0 root.1) }
    ensures err { IfErr result (LacksForm (root_at (words_in words.entry))) }
{
    match two_words(words) {
        Some((name, number, rest)) => {
            if is_spent(rest) {
                root_parts(alloc, name, number)
            } else {
                Err(LineFault::Bad(DumpCause::Form))
            }
        }
        None => Err(LineFault::Bad(DumpCause::Form)),
    }
}

// Whether the name is above the last one.
fn rises(roots: &[DumpRoot], name: &Name) -> bool
    ensures { IsTrue result ↔ IsAboveRoots (map root_shown roots.now) name.now }
{
    match roots.last() {
        Some(root) => root.name.cmp(name) == Ordering::Less,
        None => true,
    }
}

// The words behind `root`.
fn read_root(alloc: Global, parts: &mut Parts, words: Option<&[u8]>) -> Result<(), LineFault>
    requires { AreKept parts.old }
    ensures ok { OnOk result (ReadsWords (before_in parts.old) (root_at (words_in words.entry)) (before_in parts.new)) }
    ensures kept { OnOk result (AreKept parts.new) }
    ensures err { IfErr result (FailsWords (before_in parts.old) (root_at (words_in words.entry))) }
{
    let (name, id) = root_words(alloc, words)?;
    if !is_open(parts) {
        return Err(LineFault::Bad(DumpCause::Form));
    }
    if !rises(&parts.roots, &name) {
        return Err(LineFault::Bad(DumpCause::Order));
    }
    if id >= parts.next {
        return Err(LineFault::Bad(DumpCause::Limit));
    }
    if parts.roots.len() >= ROOTS {
        return Err(LineFault::Bad(DumpCause::Limit));
    }
    let id = id as u32;
    parts.roots.push(DumpRoot { name, id })?;
    Ok(())
}

// What stands behind `object`, up to the words of the fields.
#[derive(Drop)]
struct ObjectHead<'a> {
    id: u64,
    count: u64,
    bytes: Vec<u8>,
    words: Option<&'a [u8]>,
}

// The bytes that a word spells.
fn read_bytes(alloc: Global, word: &[u8]) -> Result<Vec<u8>, LineFault>
    ensures ok { IfOk result (λ bytes. hex_of word.now ≡ Some bytes.items) }
    ensures err { IfErr result (LacksName (hex_of word.now)) }
{
    match read_hex(alloc, word) {
        Ok(Some(bytes)) => Ok(bytes.into_vec()),
        Ok(None) => Err(LineFault::Bad(DumpCause::Form)),
        Err(refused) => Err(LineFault::Memory(refused)),
    }
}

// How many fields the words spell, which the word before them says.
fn counted_fields(count: &[u8], words: Option<&[u8]>) -> Option<u64>
    requires { length (words_in words) ≤ 2 ^ 32 }
    ensures { MatchOption result (LacksFields count.now (words_in words.entry))
        (λ said. HasFields count.now (words_in words.entry) said) }
{
    if !are_numerals(words) {
        return None;
    }
    match numeral(count) {
        Some(said) => {
            if said == count_words(words) {
                Some(said)
            } else {
                None
            }
        }
        None => None,
    }
}

// What three words and those of fields behind them spell.
fn object_parts<'a>(
    alloc: Global,
    number: &[u8],
    count: &[u8],
    hex: &[u8],
    words: Option<&'a [u8]>,
) -> Result<ObjectHead<'a>, LineFault>
    requires { length (words_in words) ≤ 2 ^ 32 }
    ensures ok { IfOk result (λ o. IsObject (number.now ∷ count.now ∷ hex.now ∷ words_in words.entry) o.id
        o.bytes.items o.count (words_in o.words)) }
    ensures err { IfErr result (LacksForm (object_at (number.now ∷ count.now ∷ hex.now ∷ words_in words.entry))) }
{
    match identity(number) {
        Some(id) => match counted_fields(count, words) {
            Some(count) => match read_bytes(alloc, hex) {
                Ok(bytes) => Ok(ObjectHead {
                    id,
                    count,
                    bytes,
                    words,
                }),
                Err(fault) => Err(fault),
            },
            None => Err(LineFault::Bad(DumpCause::Form)),
        },
        None => Err(LineFault::Bad(DumpCause::Form)),
    }
}

// The words behind `object`, up to those of the fields, which are counted.
fn object_words(alloc: Global, words: Option<&[u8]>) -> Result<ObjectHead<'_>, LineFault>
    requires { length (words_in words) ≤ 2 ^ 32 }
    ensures ok { IfOk result (λ o. IsObject (words_in words.entry) o.id o.bytes.items o.count (words_in o.words)) }
    ensures err { IfErr result (LacksForm (object_at (words_in words.entry))) }
{
    match three_words(words) {
        Some((number, count, hex, rest)) => object_parts(alloc, number, count, hex, rest),
        None => Err(LineFault::Bad(DumpCause::Form)),
    }
}

// What a number says of a field.
fn field_of(number: u64) -> Option<u32>
    requires { number < 2 ^ 32 }
    ensures { result ≡ some_number number }
{
    if number > 0 {
        Some(number as u32)
    } else {
        None
    }
}

// Puts the fields that the words spell behind others, each below the limit.
fn push_fields(
    fields: &mut Vec<Option<u32>>,
    words: Option<&[u8]>,
    next: u64,
) -> Result<(), LineFault>
    requires some { 0 < next }
    requires last { next ≤ END_ID }
    requires read { IsSome (fields_at (words_in words)) }
    ensures ok { OnOk result (PutsFields (words_in words.entry) next fields.old.items fields.new.items) }
    ensures err { IfErr result (FailsFields (words_in words.entry) next) }
{
    let mut left = words;
    while let Some((word, rest)) = take_word(left) {
        let Some(number) = numeral(word) else {
            return Err(LineFault::Bad(DumpCause::Limit));
        };
        if number >= next {
            return Err(LineFault::Bad(DumpCause::Limit));
        }
        fields.push(field_of(number))?;
        left = rest;
    }
    Ok(())
}

// The identity of an object.
fn id_of(place: &Place) -> u32
    ensures { result ≡ place.now.id }
{
    place.id
}

// Whether the identity is above that of the last object.
fn ascends(places: &[Place], id: u64) -> bool
    ensures told { IsTrue result ↔ IsAbovePlaces places.now id }
    ensures small { MatchOption (slice_get places.now (length places.now - 1)) (Unit {0}) (λ place. place.id < 2 ^ 32) }
{
    match places.last() {
        Some(place) => u64::from(id_of(place)) < id,
        None => true,
    }
}

// The words behind `object`.
fn read_object(alloc: Global, parts: &mut Parts, words: Option<&[u8]>) -> Result<(), LineFault>
    requires kept { AreKept parts.old }
    requires few { length (words_in words) ≤ 2 ^ 32 }
    ensures ok { OnOk result (ReadsWords (before_in parts.old) (object_at (words_in words.entry))
        (before_in parts.new)) }
    ensures kept { OnOk result (AreKept parts.new) }
    ensures err { IfErr result (FailsWords (before_in parts.old) (object_at (words_in words.entry))) }
{
    let object = object_words(alloc, words)?;
    if !is_open(parts) {
        return Err(LineFault::Bad(DumpCause::Form));
    }
    if !parts.roots.is_empty() {
        return Err(LineFault::Bad(DumpCause::Form));
    }
    if !ascends(&parts.places, object.id) {
        return Err(LineFault::Bad(DumpCause::Order));
    }
    if object.id >= parts.next {
        return Err(LineFault::Bad(DumpCause::Limit));
    }
    if object.count > u64::from(FIELDS) {
        return Err(LineFault::Bad(DumpCause::Limit));
    }
    if object.bytes.len() > OBJECT_BYTES {
        return Err(LineFault::Bad(DumpCause::Limit));
    }
    push_fields(&mut parts.fields, object.words, parts.next)?;
    parts.bytes.extend_from_slice(&object.bytes)?;
    parts.places.push(Place {
        id: object.id as u32,
        fields: parts.fields.len(),
        bytes: parts.bytes.len(),
    })?;
    Ok(())
}

// All words of a line.
#[tactic(auto, unfolding(crate::specs::Reading::line_at))]
fn read_words(alloc: Global, parts: &mut Parts, words: Option<&[u8]>) -> Result<(), LineFault>
    requires kept { AreKept parts.old }
    requires few { length (words_in words) ≤ 2 ^ 32 }
    ensures ok { OnOk result (ReadsWords (before_in parts.old) (line_at (words_in words.entry)) (before_in parts.new)) }
    ensures kept { OnOk result (AreKept parts.new) }
    ensures err { IfErr result (FailsWords (before_in parts.old) (line_at (words_in words.entry))) }
{
    let Some((word, words)) = take_word(words) else {
        return Err(LineFault::Bad(DumpCause::Form));
    };
    if is_word(word, b"object") {
        read_object(alloc, parts, words)
    } else if is_word(word, b"root") {
        read_root(alloc, parts, words)
    } else if is_word(word, b"end") {
        read_end(parts, words)
    } else if is_word(word, b"pmos") {
        read_head(parts, words)
    } else {
        Err(LineFault::Bad(DumpCause::Form))
    }
}

/// Reads a line, which stands behind those that were read. Its newline is left out.
pub(crate) fn read_line(alloc: Global, parts: &mut Parts, line: &[u8]) -> Result<(), LineFault>
    requires kept { AreKept parts.old }
    requires short { length line.now ≤ SOURCE_BYTES }
    ensures ok { OnOk result (ReadsLine (before_in parts.old) line.now (before_in parts.new)) }
    ensures kept { OnOk result (AreKept parts.new) }
    ensures err { IfErr result (FailsLine (before_in parts.old) line.now) }
{
    read_words(alloc, parts, Some(line))
}
