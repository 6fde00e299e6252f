// What stands behind a text with which bytes begin.

ghost use Rattle.std.specs.Prelude.{◌≡◌, ◌↔◌, ◌++◌, [], ◌∷◌, IsTrue, option_map};
ghost use Rattle.byteorder.specs.Endian.{big_bytes};
ghost use Rattle.pm_layout.specs.Spelling.{address};
ghost use Rattle.pm_graphs.specs.Settled.Behind.{IsBehind};
ghost use Rattle.pm_graphs.specs.Settled.Packed.{head_spelling};

use pm_layout::LIVE;
use pm_types::Addr;

/// The bytes behind this text, where they begin with it.
pub(crate) fn behind<'a>(bytes: &'a [u8], text: &[u8]) -> Option<&'a [u8]>
    ensures { IsBehind bytes.now text.now (option_map (λ rest. rest.now) result) }
{
    let Some((front, rest)) = bytes.split_at_checked(text.len()) else {
        return None;
    };
    if front != text {
        return None;
    }
    Some(rest)
}

/// The same behind one byte.
pub(crate) fn behind_byte(bytes: &[u8], byte: u8) -> Option<&[u8]>
    ensures { IsBehind bytes.now (byte ∷ []) (option_map (λ rest. rest.now) result) }
{
    if bytes.is_empty() || bytes[0] != byte {
        return None;
    }
    Some(&bytes[1..])
}

// Whether the bytes are those of a number of two bytes.
fn is_u16(bytes: &[u8; 2], number: u16) -> bool
    ensures { IsTrue result ↔ (bytes.now ≡ big_bytes 2 number) }
{
    u16::from_be_bytes(*bytes) == number
}

// Whether the bytes are those of a number of four bytes.
fn is_u32(bytes: &[u8; 4], number: u32) -> bool
    ensures { IsTrue result ↔ (bytes.now ≡ big_bytes 4 number) }
{
    u32::from_be_bytes(*bytes) == number
}

// Whether the bytes are those of a number of eight bytes.
fn is_u64(bytes: &[u8; 8], number: u64) -> bool
    ensures { IsTrue result ↔ (bytes.now ≡ big_bytes 8 number) }
{
    u64::from_be_bytes(*bytes) == number
}

/// The same behind a number of four bytes.
pub(crate) fn behind_u32(bytes: &[u8], number: u32) -> Option<&[u8]>
    ensures { IsBehind bytes.now (big_bytes 4 number) (option_map (λ rest. rest.now) result) }
{
    let Some((front, rest)) = bytes.split_first_chunk::<4>() else {
        return None;
    };
    if !is_u32(front, number) {
        return None;
    }
    Some(rest)
}

// Whether the bytes are those of an address.
#[tactic(auto, unfolding(pm_layout::specs::Spelling::address))]
fn is_address(bytes: &[u8; 12], to: Addr) -> bool
    ensures { IsTrue result ↔ (bytes.now ≡ address to) }
{
    let Some((car, rest)) = bytes.split_first_chunk::<8>() else {
        return false;
    };
    let Some(slot) = rest.first_chunk::<4>() else {
        return false;
    };
    is_u64(car, to.car) && is_u32(slot, to.slot)
}

/// The same behind an address, of any car.
#[tactic(auto, unfolding(pm_layout::specs::Spelling::address))]
pub(crate) fn behind_address(bytes: &[u8], to: Addr) -> Option<&[u8]>
    ensures { IsBehind bytes.now (address to) (option_map (λ rest. rest.now) result) }
{
    let Some((front, rest)) = bytes.split_first_chunk::<12>() else {
        return None;
    };
    if !is_address(front, to) {
        return None;
    }
    Some(rest)
}

// Whether the bytes are those of an object's numbers of fields and of bytes.
fn are_counts(bytes: &[u8; 4], fields: u16, count: u16) -> bool
    ensures { IsTrue result ↔ (bytes.now ≡ big_bytes 2 fields ++ big_bytes 2 count) }
{
    let Some((front, rest)) = bytes.split_first_chunk::<2>() else {
        return false;
    };
    let Some(back) = rest.first_chunk::<2>() else {
        return false;
    };
    is_u16(front, fields) && is_u16(back, count)
}

// Whether the bytes are those of an object's identity and of its counts.
fn are_numbers(bytes: &[u8; 12], id: u32, fields: u16, count: u16) -> bool
    ensures { IsTrue result ↔ (bytes.now ≡ big_bytes 8 id ++ (big_bytes 2 fields ++ big_bytes 2 count)) }
{
    let Some((front, rest)) = bytes.split_first_chunk::<8>() else {
        return false;
    };
    let Some(counts) = rest.first_chunk::<4>() else {
        return false;
    };
    is_u64(front, id as u64) && are_counts(counts, fields, count)
}

/// The same behind the head of an object's spelling.
pub(crate) fn behind_head(bytes: &[u8], id: u32, fields: u16, count: u16) -> Option<&[u8]>
    ensures { IsBehind bytes.now (head_spelling id fields count) (option_map (λ rest. rest.now) result) }
{
    let Some(rest) = behind_byte(bytes, LIVE) else {
        return None;
    };
    let Some((front, rest)) = rest.split_first_chunk::<12>() else {
        return None;
    };
    if !are_numbers(front, id, fields, count) {
        return None;
    }
    Some(rest)
}
