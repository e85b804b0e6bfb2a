//! Reads numbers and messages from bytes.
ghost use Rattle.std.specs.Prelude.{◌≡◌, ◌^◌, ◌<◌, ◌≤◌, ℕ, List, ◌∷◌, length};
ghost use Rattle.apex_ports.specs.Packed.{packed_number, packed_count, packed_length, packed_message};
ghost use Rattle.apex_ports.specs.Saved.{Reads};

use apex_types::MESSAGE_LIMIT;
use std::marker::Model;

/// The bytes that are left to read, which a contract sees. Where too few are left, 0 or no bytes are read.
#[derive(Drop)]
pub(crate) struct Reader<'a> {
    rest: &'a [u8],
}

impl<'a> Model for Reader<'a> {
    ghost use Rattle.std.specs.Prelude.{ℕ, List};

    ghost Value = { List ℕ };

    ghost view = { λ reader. reader.rest.now };
}

impl<'a> Reader<'a> {
    /// All these bytes are left to read.
    pub(crate) fn new(bytes: &'a [u8]) -> Reader<'a>
        ensures { result ≡ bytes.now }
    {
        Reader { rest: bytes }
    }

    /// The next byte.
    pub(crate) fn byte(&mut self) -> u8
        ensures { (byte : ℕ) (rest : List ℕ) → self.old ≡ byte ∷ rest →
            (result ≡ byte) × (self.new ≡ rest) }
    {
        let Some((byte, rest)) = self.rest.split_first() else {
            return 0;
        };
        self.rest = rest;
        *byte
    }

    /// The next number, of 8 bytes.
    pub(crate) fn number(&mut self) -> u64
        ensures { Reads packed_number (λ n. n < 2 ^ 64) (λ n. result ≡ n) self.old self.new }
    {
        let Some((bytes, rest)) = self.rest.split_first_chunk::<8>() else {
            return 0;
        };
        self.rest = rest;
        u64::from_le_bytes(*bytes)
    }

    /// The next number of messages, of 4 bytes.
    pub(crate) fn count(&mut self) -> u32
        ensures { Reads packed_count (λ n. n < 2 ^ 32) (λ n. result ≡ n) self.old self.new }
    {
        let Some((bytes, rest)) = self.rest.split_first_chunk::<4>() else {
            return 0;
        };
        self.rest = rest;
        u32::from_le_bytes(*bytes)
    }

    // The next length of a message, of 2 bytes.
    fn length(&mut self) -> u16
        ensures { Reads packed_length (λ n. n < 2 ^ 16) (λ n. result ≡ n) self.old self.new }
    {
        let Some((bytes, rest)) = self.rest.split_first_chunk::<2>() else {
            return 0;
        };
        self.rest = rest;
        u16::from_le_bytes(*bytes)
    }

    // The next bytes, this many.
    fn bytes(&mut self, count: usize) -> &'a [u8]
        ensures { Reads (λ bytes. bytes) (λ bytes. length bytes ≡ count)
            (λ bytes. result.now ≡ bytes) self.old self.new }
    {
        if self.rest.len() < count {
            return &[];
        }
        let (bytes, rest) = self.rest.split_at(count);
        self.rest = rest;
        bytes
    }

    /// The next message, behind its length.
    pub(crate) fn message(&mut self) -> &'a [u8]
        ensures { Reads packed_message (λ message. length message ≤ MESSAGE_LIMIT)
            (λ message. result.now ≡ message) self.old self.new }
    {
        let length = self.length();
        self.bytes(length as usize)
    }
}
