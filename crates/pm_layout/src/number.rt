// Numbers in bytes, the highest byte first: read at a place, and appended.

ghost use Rattle.std.specs.Prelude.{◌≡◌, ◌+◌, ◌≤◌, length};
ghost use Rattle.std.specs.List.{slice_range};
ghost use Rattle.byteorder.specs.Endian.{big_bytes};
ghost use Rattle.pm_layout.specs.Reading.{number_from};
ghost use Rattle.pm_layout.specs.Room.{HasRoom, Appends};

use byteorder::{BigEndian, ByteOrder};

/// The number in the two bytes from a place on, which are inside the bytes.
pub fn u16_at(bytes: &[u8], place: usize) -> u16
    requires { place + 2 ≤ length bytes.now }
    ensures { result ≡ number_from 2 bytes.now place }
{
    BigEndian::read_u16(&bytes[place..])
}

/// The number in the four bytes from a place on, which are inside the bytes.
pub fn u32_at(bytes: &[u8], place: usize) -> u32
    requires { place + 4 ≤ length bytes.now }
    ensures { result ≡ number_from 4 bytes.now place }
{
    BigEndian::read_u32(&bytes[place..])
}

/// The number in the eight bytes from a place on, which are inside the bytes.
pub fn u64_at(bytes: &[u8], place: usize) -> u64
    requires { place + 8 ≤ length bytes.now }
    ensures { result ≡ number_from 8 bytes.now place }
{
    BigEndian::read_u64(&bytes[place..])
}

/// The digest in the 32 bytes from a place on, which are inside the bytes.
pub fn digest_at(bytes: &[u8], place: usize) -> [u8; 32]
    requires { place + 32 ≤ length bytes.now }
    ensures { result ≡ slice_range bytes.now place (place + 32) }
{
    let mut digest = [0; 32];
    digest.copy_from_slice(&bytes[place..place + 32]);
    digest
}

/// Appends bytes, which there is room for.
pub fn put_bytes(out: &mut Vec<u8>, bytes: &[u8])
    requires { HasRoom out.old (length bytes.now) }
    ensures { Appends out.old out.new bytes.now }
{
    out.extend_from_slice(bytes).unwrap();
}

/// Appends a number of one byte, which there is room for.
pub fn put_u8(out: &mut Vec<u8>, byte: u8)
    requires { HasRoom out.old 1 }
    ensures { Appends out.old out.new (big_bytes 1 byte) }
{
    put_bytes(out, &[byte]);
}

/// Appends a number of two bytes, which there is room for.
pub fn put_u16(out: &mut Vec<u8>, number: u16)
    requires { HasRoom out.old 2 }
    ensures { Appends out.old out.new (big_bytes 2 number) }
{
    let mut bytes = [0; 2];
    BigEndian::write_u16(&mut bytes, number);
    put_bytes(out, &bytes);
}

/// Appends a number of eight bytes, which there is room for.
pub fn put_u64(out: &mut Vec<u8>, number: u64)
    requires { HasRoom out.old 8 }
    ensures { Appends out.old out.new (big_bytes 8 number) }
{
    let mut bytes = [0; 8];
    BigEndian::write_u64(&mut bytes, number);
    put_bytes(out, &bytes);
}
