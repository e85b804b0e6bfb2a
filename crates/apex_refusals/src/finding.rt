//! What is wrong at a place of a configuration: what is there, and what is expected.

use crate::printed::{Quoted, QuotedKey};
use apex_config::key::Key;
use apex_config::place::Part;
use apex_types::Direction;
use std::fmt;
use toml::Value;

/// A value of a configuration.
#[derive(Clone, Copy)]
pub enum Found<'a> {
    Text(&'a str),
    Number(i64),
    Truth(bool),
    Table,
    /// A value of another type, with the words for that type.
    Other(&'static str),
}

impl<'a> Found<'a> {
    /// The value, or its type.
    pub fn of(value: &'a Value) -> Found<'a> {
        match value {
            Value::String(text) => Found::Text(text.as_str()),
            Value::Integer(number) => Found::Number(*number),
            Value::Boolean(truth) => Found::Truth(*truth),
            Value::Float(_) => Found::Other("a float"),
            Value::Datetime(_) => Found::Other("a date or time"),
            Value::Array(_) => Found::Other("an array"),
            Value::Table(_) => Found::Table,
        }
    }
}

impl fmt::Display for Found<'_> {
    fn fmt<W: fmt::Write>(&self, f: &mut fmt::Formatter<W>) -> fmt::Result {
        match self {
            Found::Text(text) => write!(f, "{}", Quoted(text)),
            Found::Number(number) => write!(f, "{number}"),
            Found::Truth(truth) => write!(f, "{truth}"),
            Found::Table => f.write_str("a table"),
            Found::Other(words) => f.write_str(words),
        }
    }
}

/// What a value must be.
#[derive(Clone, Copy)]
pub enum Wanted<'a> {
    Text,
    WholeNumber,
    Tables,
    Kind,
    Direction,
    Name,
    /// A whole number from 1 up to this one.
    UpTo(u64),
    ChannelName,
    /// The word of this channel's kind.
    KindOf {
        word: &'static str,
        channel: &'a str,
    },
}

impl fmt::Display for Wanted<'_> {
    fn fmt<W: fmt::Write>(&self, f: &mut fmt::Formatter<W>) -> fmt::Result {
        match self {
            Wanted::Text => f.write_str("a text"),
            Wanted::WholeNumber => f.write_str("a whole number"),
            Wanted::Tables => f.write_str("an array of tables"),
            Wanted::Kind => f.write_str("\"queuing\" or \"sampling\""),
            Wanted::Direction => f.write_str("\"source\" or \"destination\""),
            Wanted::Name => f.write_str("1 to 30 ASCII letters, digits and `_`"),
            Wanted::UpTo(most) => write!(f, "1 to {most}"),
            Wanted::ChannelName => f.write_str("the name of a channel"),
            Wanted::KindOf { word, channel } => {
                write!(f, "\"{word}\", as channel {channel} is {word}")
            }
        }
    }
}

/// What is wrong at a place.
#[derive(Clone, Copy)]
pub enum Finding<'a> {
    /// A required key is missing.
    Missing {
        key: Key,
        wanted: Wanted<'a>,
    },
    /// The value of a key is not what it must be.
    Wrong {
        key: Key,
        found: Found<'a>,
        wanted: Wanted<'a>,
    },
    /// A value that must be a table is not one.
    NoTable(Found<'a>),
    /// A key that the table of this part doesn't take. `keys` lists those that it takes.
    UnknownKey {
        key: &'a str,
        keys: &'static str,
        part: Part,
        table: &'a Value,
    },
    /// The name occurred before. `first` is the number of the first that has it, from 1.
    NameTwice {
        name: &'a str,
        first: usize,
    },
    /// A channel has no port of this direction. `wanted` says how many it must have.
    NoEnd {
        direction: Direction,
        wanted: &'static str,
    },
    /// A port is one of several ports of this direction, but the channel must have exactly one.
    OneOfEnds {
        direction: Direction,
        channel: &'a str,
        count: usize,
    },
    /// There are too few or too many of these things.
    Count {
        things: &'static str,
        count: usize,
        least: usize,
        most: usize,
    },
}

/// The word of a configuration for a direction.
fn direction_word(direction: Direction) -> &'static str {
    match direction {
        Direction::Source => "source",
        Direction::Destination => "destination",
    }
}

impl fmt::Display for Finding<'_> {
    fn fmt<W: fmt::Write>(&self, f: &mut fmt::Formatter<W>) -> fmt::Result {
        match self {
            Finding::Missing { key, wanted } => {
                write!(f, "`{}` is missing; it must be {wanted}", key.word())
            }
            Finding::Wrong { key, found, wanted } => {
                write!(f, "`{}` is {found}; it must be {wanted}", key.word())
            }
            Finding::NoTable(found) => write!(f, "it is {found}; it must be a table"),
            Finding::UnknownKey { key, keys, .. } => {
                write!(
                    f,
                    "{} is an unknown key; the keys are {keys}",
                    QuotedKey(key)
                )
            }
            Finding::NameTwice { name, first } => {
                write!(
                    f,
                    "`name` is \"{name}\", the name of number {first}; it must be another"
                )
            }
            Finding::NoEnd { direction, wanted } => {
                let word = direction_word(*direction);
                write!(f, "no port is its {word}; {wanted} must be")
            }
            Finding::OneOfEnds {
                direction,
                channel,
                count,
            } => {
                let word = direction_word(*direction);
                write!(
                    f,
                    "it is one of {count} {word} ports of channel {channel}; there must be exactly 1"
                )
            }
            Finding::Count {
                things,
                count,
                least,
                most,
            } => write!(f, "it has {count} {things}; it must have {least} to {most}"),
        }
    }
}
