//! The headers of the tables of a configuration.
use apex_config::key::Key;

/// The header of each table of an array.
pub fn header_of(key: Key) -> &'static str {
    match key {
        Key::Partition => "[[partition]]",
        Key::Port => "[[partition.port]]",
        _ => "[[channel]]",
    }
}

/// The header that adds a table to the same array as the header at an offset of a text, however that is written.
pub fn header_at(text: &[u8], offset: usize) -> Option<&'static str> {
    let rest = text.get(offset..)?;
    if !rest.starts_with(b"[") {
        return None;
    }
    let end = rest.iter().position(|byte| *byte == b']')?;
    let mut start: usize = 0;
    for (index, byte) in rest.iter().take(end).enumerate() {
        if *byte == b'[' || *byte == b'.' {
            start = index.saturating_add(1);
        }
    }
    let word = rest.get(start..end)?.trim_ascii();
    if word == b"partition".as_slice() {
        Some(header_of(Key::Partition))
    } else if word == b"port".as_slice() {
        Some(header_of(Key::Port))
    } else if word == b"channel".as_slice() {
        Some(header_of(Key::Channel))
    } else {
        None
    }
}
