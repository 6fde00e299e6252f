//! Pairs of hexadecimal digits.

ghost use Rattle.std.specs.Prelude.{◌≡◌, ◌*◌, true, false, length, MatchResult};
ghost use Rattle.hex.specs.Hex.{decode_pairs, hex_digit_value};
ghost use Rattle.pm_script.specs.HexDigits.{digit_worth};

// What each byte is worth as a digit, in either case; 255 where it is none.
const WORTH: [u8; 256] = [
    255, 255, 255, 255, 255, 255, 255, 255, 255, 255, 255, 255, 255, 255, 255, 255, 255, 255, 255,
    255, 255, 255, 255, 255, 255, 255, 255, 255, 255, 255, 255, 255, 255, 255, 255, 255, 255, 255,
    255, 255, 255, 255, 255, 255, 255, 255, 255, 255, 0, 1, 2, 3, 4, 5, 6, 7, 8, 9, 255, 255, 255,
    255, 255, 255, 255, 10, 11, 12, 13, 14, 15, 255, 255, 255, 255, 255, 255, 255, 255, 255, 255,
    255, 255, 255, 255, 255, 255, 255, 255, 255, 255, 255, 255, 255, 255, 255, 255, 10, 11, 12, 13,
    14, 15, 255, 255, 255, 255, 255, 255, 255, 255, 255, 255, 255, 255, 255, 255, 255, 255, 255,
    255, 255, 255, 255, 255, 255, 255, 255, 255, 255, 255, 255, 255, 255, 255, 255, 255, 255, 255,
    255, 255, 255, 255, 255, 255, 255, 255, 255, 255, 255, 255, 255, 255, 255, 255, 255, 255, 255,
    255, 255, 255, 255, 255, 255, 255, 255, 255, 255, 255, 255, 255, 255, 255, 255, 255, 255, 255,
    255, 255, 255, 255, 255, 255, 255, 255, 255, 255, 255, 255, 255, 255, 255, 255, 255, 255, 255,
    255, 255, 255, 255, 255, 255, 255, 255, 255, 255, 255, 255, 255, 255, 255, 255, 255, 255, 255,
    255, 255, 255, 255, 255, 255, 255, 255, 255, 255, 255, 255, 255, 255, 255, 255, 255, 255, 255,
    255, 255, 255, 255, 255, 255, 255, 255, 255, 255, 255, 255, 255, 255, 255, 255, 255, 255, 255,
    255, 255, 255,
];

// What a byte is worth as a digit, in either case; over 15 where it is none.
fn worth(byte: u8) -> u8
    ensures { hex_digit_value byte ≡ digit_worth result }
{
    WORTH[usize::from(byte)]
}

/// Writes the bytes that pairs of digits spell, as many as there is room for. False where a byte is no digit.
pub(crate) fn decode_into(word: &[u8], out: &mut [u8]) -> bool
    requires { length word.now ≡ 2 * length out.old }
    ensures { MatchResult (decode_pairs 0 word.now) (λ bytes. (result ≡ true) × (out.new ≡ bytes))
        (λ _. result ≡ false) }
{
    'bytes: for i in 0..out.len() {
        let high = worth(word[2 * i]);
        let low = worth(word[2 * i + 1]);
        if high > 15 || low > 15 {
            return false;
        }
        out[i] = high * 16 + low;
    }
    true
}
