//! A word of a line in quotes, as printable ASCII.
use std::alloc::AllocError;

/// The maximum number of bytes of a word that are shown.
const SHOWN: usize = 64;

/// Writes a word in quotes: its first 64 bytes, with escapes for those that aren't printable ASCII, and `..` after the
/// quotes if the word is longer.
pub(crate) fn push_quoted(text: &mut String, word: &[u8]) -> Result<(), AllocError> {
    let shown = word.get(..SHOWN).unwrap_or(word);
    text.push_str("\"")?;
    for byte in shown {
        push_escaped(text, *byte)?;
    }
    text.push_str("\"")?;
    if word.len() > SHOWN {
        text.push_str("..")?;
    }
    Ok(())
}

fn push_escaped(text: &mut String, byte: u8) -> Result<(), AllocError> {
    match byte {
        b'"' => text.push_str("\\\""),
        b'\\' => text.push_str("\\\\"),
        b' '..=b'~' => text.push(byte as char),
        _ => write!(text, "\\x{byte:02x}"),
    }
}
