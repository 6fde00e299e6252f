ghost use Rattle.std.specs.Prelude.{◌≡◌, ◌+◌, ◌<◌, ◌++◌, length, IfOk, Ok};
ghost use Rattle.pm_layout.specs.declared.header.Header.{Header};
ghost use Rattle.byteorder.specs.Endian.{big_bytes};
ghost use Rattle.pm_layout.specs.Headers.{HasHeaderSpelling, IsHeaderInRange, magic, header_numbers, header_body, header_spelling, magic_at, most_fields, version_at, digest_kept, next_at, header_at};

use crate::digest;
use crate::number::{digest_at, u32_at, u64_at};
use byteorder::{BigEndian, ByteOrder};
use pm_types::{FIELDS, OLD_FIELDS, OLD_VERSION, VERSION};
use thiserror::Error;

/// What a store's header says of one copy of the graph.
#[derive(Clone, Copy, Debug, PartialEq, Eq)]
pub struct Header {
    /// The version of the format: 1, or 2, which is the one that is written.
    pub version: u32,
    /// The number of the copy.
    pub epoch: u32,
    /// The identity that the next object gets: 1 to 4,294,967,296.
    pub next: u64,
    /// The first catalog page, counted in pages of the file.
    pub first: u64,
    /// The digest of that page.
    pub digest: [u8; 32],
}

/// Why bytes are no header. The first that applies is the one that is answered.
#[derive(Clone, Copy, Debug, PartialEq, Eq, Error)]
pub enum HeaderFault {
    /// The first eight bytes are not those of a store.
    #[error("not a store")]
    Magic,
    /// The format has this version, which is neither 1 nor 2.
    #[error("version {0}")]
    Version(u32),
    /// The header keeps another digest than that of its bytes 0 to 63.
    #[error("the header is damaged")]
    Digest {
        /// The digest that the header keeps.
        kept: [u8; 32],
        /// The digest of the header's bytes 0 to 63.
        found: [u8; 32],
    },
    /// The next identity is 0 or over 4,294,967,296.
    #[error("the next identity is out of range")]
    Next,
}

// The eight bytes that a header begins with, `PMOSRTL1`.
const MAGIC: [u8; 8] = [0x50, 0x4d, 0x4f, 0x53, 0x52, 0x54, 0x4c, 0x31];

// The greatest next identity: the last identity was given.
const LAST_NEXT: u64 = 4_294_967_296;

/// The most reference fields that an object has in a store of this version.
pub fn most_fields(version: u32) -> u32
    ensures { result ≡ most_fields version }
{
    if version == OLD_VERSION {
        OLD_FIELDS
    } else {
        FIELDS
    }
}

// Two numbers of four bytes, one after the other.
fn put_versions(out: &mut [u8], version: u32, epoch: u32)
    requires { length out.old ≡ 8 }
    ensures { out.new ≡ big_bytes 4 version ++ big_bytes 4 epoch }
{
    let (front, back) = out.split_at_mut(4);
    BigEndian::write_u32(front, version);
    BigEndian::write_u32(back, epoch);
}

// Two numbers of eight bytes, one after the other.
fn put_places(out: &mut [u8], next: u64, first: u64)
    requires { length out.old ≡ 16 }
    ensures { out.new ≡ big_bytes 8 next ++ big_bytes 8 first }
{
    let (front, back) = out.split_at_mut(8);
    BigEndian::write_u64(front, next);
    BigEndian::write_u64(back, first);
}

// The four numbers of a header.
#[tactic(auto, unfolding(crate::specs::Headers::header_numbers))]
fn put_numbers(out: &mut [u8], header: &Header)
    requires { length out.old ≡ 24 }
    ensures { out.new ≡ header_numbers header.now }
{
    let (front, back) = out.split_at_mut(8);
    put_versions(front, header.version, header.epoch);
    put_places(back, header.next, header.first);
}

// The first 64 bytes of a header.
#[tactic(auto, unfolding(crate::specs::Headers::header_body))]
fn put_body(out: &mut [u8], header: &Header)
    requires { length out.old ≡ 64 }
    ensures { out.new ≡ header_body header.now }
{
    let (front, rest) = out.split_at_mut(8);
    let (numbers, back) = rest.split_at_mut(24);
    front.copy_from_slice(&MAGIC);
    put_numbers(numbers, header);
    back.copy_from_slice(&header.digest);
}

/// The bytes of the header.
#[tactic(auto, unfolding(crate::specs::Headers::header_spelling))]
pub fn write_header(header: &Header) -> [u8; 96]
    requires { HasHeaderSpelling header.now }
    ensures { result ≡ header_spelling header.now }
{
    let mut bytes = [0; 96];
    let (body, kept) = bytes.split_at_mut(64);
    put_body(body, header);
    kept.copy_from_slice(&digest(body));
    bytes
}

// The first eight bytes are the magic.
#[tactic(auto, unfolding(crate::specs::Headers::magic_at))]
fn check_magic(bytes: &[u8; 96]) -> Result<(), HeaderFault>
    ensures { result ≡ magic_at bytes.now }
{
    if bytes[..8] != MAGIC[..] {
        return Err(HeaderFault::Magic);
    }
    Ok(())
}

#[tactic(auto, unfolding(crate::specs::Headers::version_at))]
fn version_at(bytes: &[u8; 96]) -> Result<u32, HeaderFault>
    ensures { result ≡ version_at bytes.now }
{
    let version = u32_at(bytes, 8);
    if version != OLD_VERSION && version != VERSION {
        return Err(HeaderFault::Version(version));
    }
    Ok(version)
}

// The digest of the first 64 bytes stands at byte 64.
#[tactic(auto, unfolding(crate::specs::Headers::digest_kept))]
fn check_digest(bytes: &[u8; 96]) -> Result<(), HeaderFault>
    ensures { result ≡ digest_kept bytes.now }
{
    let kept = digest_at(bytes, 64);
    let found = digest(&bytes[..64]);
    if kept != found {
        return Err(HeaderFault::Digest { kept, found });
    }
    Ok(())
}

#[tactic(auto, unfolding(crate::specs::Headers::next_at))]
fn next_at(bytes: &[u8; 96]) -> Result<u64, HeaderFault>
    ensures { result ≡ next_at bytes.now }
{
    let next = u64_at(bytes, 16);
    if next == 0 || next > LAST_NEXT {
        return Err(HeaderFault::Next);
    }
    Ok(next)
}

// The header, or the first fault.
#[tactic(auto, unfolding(crate::specs::Headers::header_at))]
fn header_at(bytes: &[u8; 96]) -> Result<Header, HeaderFault>
    ensures { result ≡ header_at bytes.now }
{
    check_magic(bytes)?;
    let version = version_at(bytes)?;
    check_digest(bytes)?;
    let next = next_at(bytes)?;
    Ok(Header {
        version,
        epoch: u32_at(bytes, 12),
        next,
        first: u64_at(bytes, 24),
        digest: digest_at(bytes, 32),
    })
}

/// The header that the bytes spell.
pub fn read_header(bytes: &[u8; 96]) -> Result<Header, HeaderFault>
    // What is read is spelled so.
    ensures found { IfOk result (λ header. HasHeaderSpelling header × (bytes.now ≡ header_spelling header)) }
    // What is spelled so is read.
    ensures only { (header : Header) → HasHeaderSpelling header → IsHeaderInRange header
        → bytes.now ≡ header_spelling header → result ≡ Ok header }
    // Which fault it is.
    ensures exact { result ≡ header_at bytes.now }
{
    header_at(bytes)
}
