//! Buffers that C lends for a message, a name or another text.
ghost use Rattle.std.specs.Prelude.{◌≡◌, ◌<◌, ◌≤◌, ◌++◌, ◌^◌, Ok, drop, length};
ghost use Rattle.apex_c.specs.Texts.{text_after, text_answer};

use crate::answer::{READ, SHORT_BUFFER};

/// Copies the bytes to the first ones of the buffer, and answers their number.
pub(crate) fn copy_bytes(bytes: &[u8], buffer: &mut [u8]) -> u32
    requires short { length bytes.now < 2 ^ 32 }
    requires within { length bytes.now ≤ length buffer.old }
    ensures bytes { buffer.new ≡ bytes.now ++ drop (length bytes.now) buffer.old }
    ensures length { result ≡ length bytes.now }
{
    buffer[..bytes.len()].copy_from_slice(bytes);
    bytes.len() as u32
}

/// Copies a text to the first bytes of the buffer if it has room for all of them, and puts the text's length into its
/// place. Answers `READ` or `SHORT_BUFFER`.
pub(crate) fn put_text(text: &[u8], buffer: &mut [u8], text_length: &mut u64) -> u32
    ensures answer { result ≡ text_answer (Ok text.now) (length buffer.old) }
    ensures buffer { buffer.new ≡ text_after (Ok text.now) buffer.old }
    ensures length { text_length.new ≡ length text.now }
{
    *text_length = text.len() as u64;
    if buffer.len() < text.len() {
        return SHORT_BUFFER;
    }
    buffer[..text.len()].copy_from_slice(text);
    READ
}
