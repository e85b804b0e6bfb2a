//! Hexadecimal digits, which are read and written by tables.
ghost use Rattle.std.specs.Prelude.{◌≡◌, ◌+◌, ◌*◌, ◌/◌, ◌%◌, ◌≤◌, length, slice_index, unwrap_or, Ok, Err, MatchResult};
ghost use Rattle.hex.specs.Hex.{decode_of, encode_lower, hex_digit_value, lower_digits};
ghost use Rattle.apex_types.specs.Message.{message_of_digits};

use crate::message::{HEX_LIMIT, HexFault};

// In `VALUES`: not a digit.
const NO: u16 = 256;

// The value of each digit of either case, at the place of its byte.
static VALUES: [u16; 256] = [
    NO, NO, NO, NO, NO, NO, NO, NO, NO, NO, NO, NO, NO, NO, NO, NO, NO, NO, NO, NO, NO, NO, NO, NO,
    NO, NO, NO, NO, NO, NO, NO, NO, NO, NO, NO, NO, NO, NO, NO, NO, NO, NO, NO, NO, NO, NO, NO, NO,
    0, 1, 2, 3, 4, 5, 6, 7, 8, 9, NO, NO, NO, NO, NO, NO, NO, 10, 11, 12, 13, 14, 15, NO, NO, NO,
    NO, NO, NO, NO, NO, NO, NO, NO, NO, NO, NO, NO, NO, NO, NO, NO, NO, NO, NO, NO, NO, NO, NO, 10,
    11, 12, 13, 14, 15, NO, NO, NO, NO, NO, NO, NO, NO, NO, NO, NO, NO, NO, NO, NO, NO, NO, NO, NO,
    NO, NO, NO, NO, NO, NO, NO, NO, NO, NO, NO, NO, NO, NO, NO, NO, NO, NO, NO, NO, NO, NO, NO, NO,
    NO, NO, NO, NO, NO, NO, NO, NO, NO, NO, NO, NO, NO, NO, NO, NO, NO, NO, NO, NO, NO, NO, NO, NO,
    NO, NO, NO, NO, NO, NO, NO, NO, NO, NO, NO, NO, NO, NO, NO, NO, NO, NO, NO, NO, NO, NO, NO, NO,
    NO, NO, NO, NO, NO, NO, NO, NO, NO, NO, NO, NO, NO, NO, NO, NO, NO, NO, NO, NO, NO, NO, NO, NO,
    NO, NO, NO, NO, NO, NO, NO, NO, NO, NO, NO, NO, NO, NO, NO, NO, NO, NO, NO, NO, NO, NO, NO, NO,
    NO, NO, NO, NO, NO, NO, NO, NO, NO, NO, NO, NO, NO, NO,
];

// The two lower-case digits of each byte.
static PAIRS: [u8; 512] = *b"\
    000102030405060708090a0b0c0d0e0f101112131415161718191a1b1c1d1e1f\
    202122232425262728292a2b2c2d2e2f303132333435363738393a3b3c3d3e3f\
    404142434445464748494a4b4c4d4e4f505152535455565758595a5b5c5d5e5f\
    606162636465666768696a6b6c6d6e6f707172737475767778797a7b7c7d7e7f\
    808182838485868788898a8b8c8d8e8f909192939495969798999a9b9c9d9e9f\
    a0a1a2a3a4a5a6a7a8a9aaabacadaeafb0b1b2b3b4b5b6b7b8b9babbbcbdbebf\
    c0c1c2c3c4c5c6c7c8c9cacbcccdcecfd0d1d2d3d4d5d6d7d8d9dadbdcdddedf\
    e0e1e2e3e4e5e6e7e8e9eaebecedeeeff0f1f2f3f4f5f6f7f8f9fafbfcfdfeff";

// The byte of two digits; more than any byte if one of them is not a digit.
fn byte_of(high: u8, low: u8) -> u16
    ensures { result ≡
        16 * unwrap_or (hex_digit_value high) 256 + unwrap_or (hex_digit_value low) 256 }
{
    16 * VALUES[high as usize] + VALUES[low as usize]
}

fn first_digit(byte: u8) -> u8
    ensures { result ≡ slice_index lower_digits (byte / 16) }
{
    PAIRS[2 * (byte as usize)]
}

fn second_digit(byte: u8) -> u8
    ensures { result ≡ slice_index lower_digits (byte % 16) }
{
    PAIRS[2 * (byte as usize) + 1]
}

/// Reads two digits for each byte of `out`. After a fault `out` is unspecified.
pub(crate) fn decode(digits: &[u8], out: &mut [u8]) -> Result<(), HexFault>
    requires twice { length digits.now ≡ 2 * length out.old }
    requires short { length digits.now ≤ HEX_LIMIT }
    ensures { MatchResult result
        (λ _. message_of_digits (decode_of digits.now) ≡ Ok out.new)
        (λ fault. message_of_digits (decode_of digits.now) ≡ Err fault) }
{
    for i in 0..out.len() {
        let byte = byte_of(digits[2 * i], digits[2 * i + 1]);
        if byte > 255 {
            return Err(HexFault::BadDigit);
        }
        out[i] = byte as u8;
    }
    Ok(())
}

/// Writes two lower-case digits for each byte.
pub(crate) fn encode(bytes: &[u8], digits: &mut [u8])
    requires { length digits.old ≡ 2 * length bytes.now }
    ensures { digits.new ≡ encode_lower bytes.now }
{
    for i in 0..bytes.len() {
        digits[2 * i] = first_digit(bytes[i]);
        digits[2 * i + 1] = second_digit(bytes[i]);
    }
}
