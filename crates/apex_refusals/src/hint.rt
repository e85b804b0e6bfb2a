//! What was most likely meant at a place of a configuration.
use crate::finding::{Finding, Found, Wanted};
use crate::header::header_of;
use crate::known_word::nearest;
use apex_config::config_text::ChannelText;
use apex_config::form::{channel_keys, is_known, port_keys};
use apex_config::key::Key;
use apex_config::place::Part;
use apex_module::CHANNEL_LIMIT;
use std::alloc::{AllocError, Global};
use std::fmt;
use toml::Value;

/// What was most likely meant.
#[derive(Clone, Copy)]
pub enum Hint<'a> {
    /// This known word.
    Near(&'a str),
    /// This key, which only other parts take.
    Elsewhere(&'a str),
    /// A text, which must be in quotes.
    InQuotes,
    /// A number, which must be without quotes.
    WithoutQuotes,
    /// An array of tables.
    Tables(Key),
}

impl fmt::Display for Hint<'_> {
    fn fmt<W: fmt::Write>(&self, f: &mut fmt::Formatter<W>) -> fmt::Result {
        match self {
            Hint::Near(word) => write!(f, "did you mean `{word}`?"),
            Hint::Elsewhere(word) => write!(f, "`{word}` belongs only to {}", parts_with(word)),
            Hint::InQuotes => f.write_str("a text takes quotes"),
            Hint::WithoutQuotes => f.write_str("a number takes no quotes"),
            Hint::Tables(key) => write!(f, "write `{}` for each", header_of(*key)),
        }
    }
}

/// The parts of a configuration that take a key.
fn parts_with(key: &str) -> &'static str {
    match key {
        "partition" => "the top level, as `[[partition]]`",
        "port" => "partitions, as `[[partition.port]]`",
        "channel" => "the top level, as `[[channel]]`, and to ports",
        "name" => "partitions, ports and channels",
        "kind" => "ports and channels",
        "direction" => "ports",
        "size" => "channels",
        "depth" => "queuing channels",
        _ => "sampling ports",
    }
}

/// The keys of a configuration.
const KEYS: [&'static str; 9] = [
    "partition",
    "port",
    "channel",
    "name",
    "kind",
    "direction",
    "size",
    "depth",
    "refresh",
];

const KINDS: [&'static str; 2] = ["queuing", "sampling"];

const DIRECTIONS: [&'static str; 2] = ["source", "destination"];

/// What was most likely meant, if there is a guess. The channels are those of the text.
pub fn hint_of<'a>(
    alloc: Global,
    finding: &Finding<'a>,
    channels: &[ChannelText<'a>],
) -> Result<Option<Hint<'a>>, AllocError> {
    match finding {
        Finding::UnknownKey {
            key,
            part,
            table,
            ..
        } => unknown_hint(alloc, *part, table, key),
        Finding::Wrong {
            found: Found::Text(text),
            wanted,
            ..
        } => text_hint(alloc, text, *wanted, channels),
        Finding::Wrong {
            found: Found::Number(_),
            wanted: Wanted::Text | Wanted::Kind | Wanted::Direction,
            ..
        } => Ok(Some(Hint::InQuotes)),
        Finding::Wrong {
            key,
            found: Found::Table,
            wanted: Wanted::Tables,
        } => Ok(Some(Hint::Tables(*key))),
        _ => Ok(None),
    }
}

/// What was most likely meant by a text.
fn text_hint<'a>(
    alloc: Global,
    text: &str,
    wanted: Wanted<'_>,
    channels: &[ChannelText<'a>],
) -> Result<Option<Hint<'a>>, AllocError> {
    match wanted {
        Wanted::Kind => near_known(alloc, text, &KINDS),
        Wanted::Direction => near_known(alloc, text, &DIRECTIONS),
        Wanted::WholeNumber => Ok(Some(Hint::WithoutQuotes)),
        Wanted::ChannelName => {
            let mut names = Vec::new(alloc);
            for channel in channels.iter().take(CHANNEL_LIMIT) {
                names.push(channel.name)?;
            }
            near(alloc, text, names.as_slice())
        }
        _ => Ok(None),
    }
}

/// The nearest of these words.
fn near<'a>(alloc: Global, text: &str, words: &[&'a str]) -> Result<Option<Hint<'a>>, AllocError> {
    match nearest(alloc, text.as_bytes(), words)? {
        Some(word) => Ok(Some(Hint::Near(word))),
        None => Ok(None),
    }
}

/// The nearest of the words that are known for every text.
fn near_known<'a>(
    alloc: Global,
    text: &str,
    words: &[&'static str],
) -> Result<Option<Hint<'a>>, AllocError> {
    match nearest(alloc, text.as_bytes(), words)? {
        Some(word) => Ok(Some(Hint::Near(word))),
        None => Ok(None),
    }
}

/// The key of a configuration that is nearest to a word.
fn nearest_key(alloc: Global, word: &str) -> Result<Option<&'static str>, AllocError> {
    nearest(alloc, word.as_bytes(), &KEYS)
}

/// What was most likely meant by a key that its part doesn't take: one that the part takes and doesn't have yet, or one
/// that other parts take.
fn unknown_hint<'a>(
    alloc: Global,
    part: Part,
    table: &Value,
    key: &str,
) -> Result<Option<Hint<'a>>, AllocError> {
    let Some(word) = nearest_key(alloc, key)? else {
        return Ok(None);
    };
    if !is_known(keys_of(part, table), word) {
        return Ok(Some(Hint::Elsewhere(word)));
    }
    if is_list(part, word) || table.get(word).is_none() {
        Ok(Some(Hint::Near(word)))
    } else {
        Ok(None)
    }
}

/// The keys that a part takes.
fn keys_of(part: Part, table: &Value) -> &'static [Key] {
    match part {
        Part::Document => &[Key::Partition, Key::Channel],
        Part::Partition { .. } => &[Key::Name, Key::Port],
        Part::Port { .. } => port_keys(table),
        Part::Channel { .. } => channel_keys(table),
    }
}

/// Whether a key that a part takes is an array of tables, to which a header adds a table.
fn is_list(part: Part, word: &str) -> bool {
    match part {
        Part::Document => true,
        Part::Partition { .. } => word == "port",
        Part::Port { .. } | Part::Channel { .. } => false,
    }
}
