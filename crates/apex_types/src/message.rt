//! Messages.
ghost use Rattle.std.specs.Prelude.{◌≡◌, ◌*◌, ◌%◌, ◌≤◌, ◌<◌, [], length, Ok, Err, MatchResult};
ghost use Rattle.std.specs.List.{list_all};
ghost use Rattle.hex.specs.Hex.{decode_of, is_hex_digit};
ghost use Rattle.apex_types.specs.Message.{message_of_digits, message_of_hex, hex_text_of};

use crate::digits::{decode, encode};
use arrayvec::{ArrayString, ArrayVec};
use std::marker::Model;
use std::str;
use thiserror::Error;

/// The maximum length of a message, in bytes.
pub const MESSAGE_LIMIT: usize = 1024;

/// The length of the longest message's hexadecimal text, in bytes: two digits a byte.
pub const HEX_LIMIT: usize = 2 * MESSAGE_LIMIT;

// What a buffer that grows is filled with.
static BLANK: [u8; MESSAGE_LIMIT] = [0; MESSAGE_LIMIT];

/// A message of at most `MESSAGE_LIMIT` bytes. A contract sees it as the list of its bytes.
#[derive(Debug, Drop, PartialEq, Eq)]
pub struct Message {
    bytes: ArrayVec<u8, MESSAGE_LIMIT>,
}

impl Model for Message {
    ghost use Rattle.std.specs.Prelude.{ℕ, List, ◌≤◌, length};
    ghost use Rattle.apex_types.specs.declared.message.TheConstants.{MESSAGE_LIMIT};

    ghost Value = { List ℕ };

    ghost view = { λ message. message.bytes.items };

    ghost invariant = { λ message. length message.bytes.items ≤ MESSAGE_LIMIT };

    ghost inverse = { λ bytes. record { bytes = record { items = bytes } } };
}

/// The bytes are more than a message holds.
#[derive(Clone, Copy, Debug, PartialEq, Eq, Error)]
#[error("too long")]
pub struct TooLong;

/// Why a text is not a message.
#[derive(Clone, Copy, Debug, PartialEq, Eq, Error)]
pub enum HexFault {
    /// The text has an odd number of bytes.
    #[error("odd length")]
    OddLength,
    /// A byte is not a hexadecimal digit.
    #[error("bad digit")]
    BadDigit,
    /// The text has digits for more than `MESSAGE_LIMIT` bytes.
    #[error("too long")]
    TooLong,
}

impl Message {
    /// The empty message.
    pub fn empty() -> Message
        ensures { result ≡ [] }
    {
        Message {
            bytes: ArrayVec::new(),
        }
    }

    /// The message of these bytes.
    pub fn from_bytes(bytes: &[u8]) -> Result<Message, TooLong>
        ensures { MatchResult result
            (λ message. (message ≡ bytes.now) × (length bytes.now ≤ MESSAGE_LIMIT))
            (λ _. MESSAGE_LIMIT < length bytes.now) }
    {
        let mut message = Message::empty();
        match message.bytes.try_extend_from_slice(bytes) {
            Ok(()) => Ok(message),
            Err(_) => Err(TooLong),
        }
    }

    /// Replaces the message by these bytes, in no more time than they need. After a fault the message is unspecified.
    pub fn read_bytes(&mut self, bytes: &[u8]) -> Result<(), TooLong>
        ensures { MatchResult result
            (λ _. (self.new ≡ bytes.now) × (length bytes.now ≤ MESSAGE_LIMIT))
            (λ _. MESSAGE_LIMIT < length bytes.now) }
    {
        if bytes.len() > MESSAGE_LIMIT {
            return Err(TooLong);
        }
        set_len(&mut self.bytes, bytes.len());
        self.bytes.as_mut_slice().copy_from_slice(bytes);
        Ok(())
    }

    /// Reads hexadecimal digits of either case. `-` and the empty text are the empty message. If there are several
    /// faults, it returns the first in the order of `HexFault`.
    pub fn from_hex(text: &str) -> Result<Message, HexFault>
        ensures { result ≡ message_of_hex text.now }
    {
        let mut message = Message::empty();
        message.read_hex(text)?;
        Ok(message)
    }

    /// Reads as `from_hex` does, into this message. After a fault the message is unspecified.
    pub fn read_hex(&mut self, text: &str) -> Result<(), HexFault>
        ensures { MatchResult result (λ _. message_of_hex text.now ≡ Ok self.new)
            (λ fault. message_of_hex text.now ≡ Err fault) }
    {
        self.read_hex_bytes(text.as_bytes())
    }

    /// Reads as `read_hex` does, from bytes, which need not be UTF-8.
    pub fn read_hex_bytes(&mut self, digits: &[u8]) -> Result<(), HexFault>
        ensures { MatchResult result (λ _. message_of_hex digits.now ≡ Ok self.new)
            (λ fault. message_of_hex digits.now ≡ Err fault) }
    {
        if digits == "-".as_bytes() {
            self.bytes.clear();
            return Ok(());
        }
        if digits.len() % 2 != 0 {
            return Err(HexFault::OddLength);
        }
        if digits.len() > HEX_LIMIT {
            return Err(if has_hex_digits(digits) {
                HexFault::TooLong
            } else {
                HexFault::BadDigit
            });
        }
        self.read_in_place(digits)
    }

    // Reads an even number of digits, at most as many as the longest message has.
    fn read_in_place(&mut self, digits: &[u8]) -> Result<(), HexFault>
        requires even { length digits.now % 2 ≡ 0 }
        requires short { length digits.now ≤ HEX_LIMIT }
        ensures { MatchResult result
            (λ _. message_of_digits (decode_of digits.now) ≡ Ok self.new)
            (λ fault. message_of_digits (decode_of digits.now) ≡ Err fault) }
    {
        set_len(&mut self.bytes, digits.len() / 2);
        decode(digits, self.bytes.as_mut_slice())
    }

    /// The lower-case hexadecimal text of the message, `-` for the empty message. `from_hex` reads it back.
    pub fn to_hex(&self) -> ArrayString<HEX_LIMIT>
        ensures text { result.bytes ≡ hex_text_of self.now }
        ensures reads_back { message_of_hex (hex_text_of self.now) ≡ Ok self.now }
    {
        let mut digits = [0; HEX_LIMIT];
        let mut text = ArrayString::new();
        text.push_str(hex_text(self.bytes.as_slice(), &mut digits));
        text
    }

    /// The text of `to_hex`, with its digits in the caller's buffer.
    pub fn hex_in<'a>(&self, digits: &'a mut [u8; HEX_LIMIT]) -> &'a str
        ensures { result.now ≡ hex_text_of self.now }
    {
        hex_text(self.bytes.as_slice(), digits)
    }

    /// The bytes of the message.
    pub fn bytes(&self) -> &[u8]
        ensures bytes { result.now ≡ self.now }
        ensures short { length result.now ≤ MESSAGE_LIMIT }
    {
        self.bytes.as_slice()
    }

    /// A copy of the message.
    pub fn copy(&self) -> Message
        ensures { result ≡ self.now }
    {
        let mut message = Message::empty();
        message
            .bytes
            .try_extend_from_slice(self.bytes.as_slice())
            .unwrap();
        message
    }

    /// Makes the message equal to another. It copies only the other's bytes, not its whole buffer.
    pub fn copy_from(&mut self, other: &Message)
        ensures { self.new ≡ other.now }
    {
        set_len(&mut self.bytes, other.bytes.len());
        self.bytes
            .as_mut_slice()
            .copy_from_slice(other.bytes.as_slice());
    }
}

// Gives the buffer this length, with unspecified bytes. It writes only those that are added or dropped.
fn set_len(bytes: &mut ArrayVec<u8, MESSAGE_LIMIT>, len: usize)
    requires { len ≤ MESSAGE_LIMIT }
    ensures { length bytes.new.items ≡ len }
{
    let old = bytes.len();
    if len < old {
        bytes.truncate(len);
    } else if len > old {
        bytes.try_extend_from_slice(&BLANK[..len - old]).unwrap();
    }
}

fn has_hex_digits(text: &[u8]) -> bool
    ensures { result ≡ list_all is_hex_digit text.now }
{
    text.iter().all(|byte| byte.is_ascii_hexdigit())
}

/// The hexadecimal text of these bytes, as `Message::to_hex` gives it, with its digits in the caller's buffer.
pub fn hex_text<'a>(bytes: &[u8], digits: &'a mut [u8]) -> &'a str
    requires { 2 * length bytes.now ≤ length digits.old }
    ensures text { result.now ≡ hex_text_of bytes.now }
    ensures length { length bytes.now ≤ MESSAGE_LIMIT → length result.now ≤ HEX_LIMIT }
    ensures reads_back { length bytes.now ≤ MESSAGE_LIMIT →
        message_of_hex (hex_text_of bytes.now) ≡ Ok bytes.now }
{
    if bytes.is_empty() {
        return "-";
    }
    let digits = &mut digits[..2 * bytes.len()];
    encode(bytes, digits);
    // SAFETY: hexadecimal digits are ASCII.
    unsafe { str::from_utf8_unchecked(digits) }
}
