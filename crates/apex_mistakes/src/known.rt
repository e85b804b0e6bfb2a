//! What is known about a faulty line.
ghost use Rattle.std.specs.Prelude.{◌<◌, length, IfSome};

use crate::line_place::LinePlace;
use apex_module::Config;
use apex_texts::Service;
use apex_texts::text::next_word;

/// The partition that makes the calls of a text.
#[derive(Clone, Copy)]
pub(crate) enum Caller {
    /// The partition with this number.
    Script(usize),
    /// The partition that each line names.
    Trace,
}

/// A faulty line and the place of its fault.
#[derive(Clone, Copy)]
pub(crate) struct FaultyLine<'a> {
    pub(crate) config: &'a Config,
    pub(crate) caller: Caller,
    pub(crate) line: &'a [u8],
    pub(crate) place: LinePlace,
}

impl<'a> FaultyLine<'a> {
    /// The faulty word; none if it is missing.
    pub(crate) fn faulty_word(&self) -> Option<&'a [u8]> {
        word_at(self.line, self.place.word)
    }

    /// The first word of the line.
    pub(crate) fn first_word(&self) -> Option<&'a [u8]> {
        word_at(self.line, 1)
    }

    /// The word after the faulty one.
    pub(crate) fn next_word(&self) -> Option<&'a [u8]> {
        word_at(self.line, self.place.word.saturating_add(1))
    }

    /// The service that the line calls.
    pub(crate) fn service(&self) -> Option<Service> {
        let number = match self.caller {
            Caller::Script(_) => 2,
            Caller::Trace => 3,
        };
        Service::named(word_at(self.line, number)?)
    }

    /// The byte that isn't ASCII.
    pub(crate) fn faulty_byte(&self) -> u8 {
        let byte = self.line.get(self.place.column.saturating_sub(1));
        byte.copied().unwrap_or(0)
    }

    /// The partition that makes the call, if the configuration has it.
    pub(crate) fn partition(&self) -> Option<usize>
        ensures { IfSome result (λ p. p < length self.now.config.now.partitions) }
    {
        match self.caller {
            Caller::Script(partition) if partition < self.config.partitions() => Some(partition),
            Caller::Script(_) => None,
            Caller::Trace => self.config.partition_called(word_at(self.line, 2)?),
        }
    }
}

/// The word with this number, from 1.
pub(crate) fn word_at(line: &[u8], number: usize) -> Option<&[u8]> {
    let mut rest = line;
    for before in 1..number {
        let (_, after) = next_word(rest)?;
        rest = after;
    }
    let (word, _) = next_word(rest)?;
    Some(word)
}
