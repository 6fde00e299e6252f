//! Lines of text that take no memory: bytes, numbers and digests, one behind another.

ghost use Rattle.std.specs.Prelude.{◌≡◌, ◌+◌, ◌≤◌, ◌++◌, length};
ghost use Rattle.hex.specs.Hex.{encode_lower};
ghost use Rattle.arrayvec.specs.ArrayVec.{array_vec_len};

use arrayvec::ArrayVec;
use hex::encode_to_slice;
use itoa::{Buffer, Integer};

/// The most bytes of a line: words, two digests of 64 digits and a number of 20, or words and numbers of 10, 39, 20 and
/// 20 digits.
pub const LINE_BYTES: usize = 256;

/// A line, which takes no memory.
pub type Line = ArrayVec<u8, LINE_BYTES>;

/// Appends bytes, for which there is room.
pub fn append(line: &mut Line, bytes: &[u8])
    requires { array_vec_len line.old + length bytes.now ≤ LINE_BYTES }
    ensures text { line.new.items ≡ line.old.items ++ bytes.now }
    ensures len { array_vec_len line.new ≡ array_vec_len line.old + length bytes.now }
{
    line.try_extend_from_slice(bytes).unwrap();
}

/// Appends a number in decimal digits, for which there is room.
pub fn append_number<I: Integer>(line: &mut Line, number: I)
    requires { array_vec_len line.old + I.MAX_STR_LEN ≤ LINE_BYTES }
    ensures text { line.new.items ≡ line.old.items ++ I.text number }
    ensures len { array_vec_len line.new ≤ array_vec_len line.old + I.MAX_STR_LEN }
{
    let mut buffer = Buffer::new();
    append(line, buffer.format(number).as_bytes());
}

/// Appends a digest in 64 lower-case hexadecimal digits, for which there is room.
pub fn append_digest(line: &mut Line, digest: &[u8; 32])
    requires { array_vec_len line.old + 64 ≤ LINE_BYTES }
    ensures text { line.new.items ≡ line.old.items ++ encode_lower digest.now }
    ensures len { array_vec_len line.new ≡ array_vec_len line.old + 64 }
{
    let mut digits = [0; 64];
    encode_to_slice(digest, &mut digits).unwrap();
    append(line, &digits);
}

/// A line of these bytes.
pub fn line_with(bytes: &[u8]) -> Line
    requires { length bytes.now ≤ LINE_BYTES }
    ensures text { result.items ≡ bytes.now }
    ensures len { array_vec_len result ≡ length bytes.now }
{
    let mut line = Line::new();
    append(&mut line, bytes);
    line
}
