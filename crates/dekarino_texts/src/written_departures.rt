//! Departures that are written as soon as they are found.
use crate::departures::{DepartureCounts, DepartureSink, LogPlace, SinkError};
use apex_judge::Expected;
use apex_module::Config;
use apex_ports::Entry;
use apex_types::Call;
use std::alloc::AllocError;
use std::io;
use std::io::Write;

/// Puts departures in words.
pub trait DepartureWords {
    ghost use Rattle.std.specs.Prelude.{◌<◌, length};

    /// Appends the words of a departure, which are of what a sink takes.
    fn push_departure(
        &mut self,
        config: &Config,
        file: &str,
        place: LogPlace,
        entry: &Entry,
        asked: &Call,
        expected: &Expected,
    ) -> Result<(), AllocError>
        requires { entry.now.partition < length config.now.partitions };

    /// Appends the words of the counts of a log.
    fn push_counts(&mut self, counts: DepartureCounts) -> Result<(), AllocError>;

    /// The words so far.
    fn text(&mut self) -> &mut String;

    /// The words.
    fn into_text(self) -> String;
}

/// Writes each departure, and flushes the output, when it is found.
#[derive(Drop)]
pub struct WrittenDepartures<'a, D, W> {
    pub words: D,
    pub output: &'a mut W,
}

impl<D: DepartureWords, W: Write> DepartureSink for WrittenDepartures<'_, D, W> {
    ghost takes = { λ _ _ _. Unit {0} };

    fn departure(
        &mut self,
        config: &Config,
        file: &str,
        place: LogPlace,
        entry: &Entry,
        asked: &Call,
        expected: &Expected,
    ) -> Result<(), SinkError> {
        self.words
            .push_departure(config, file, place, entry, asked, expected)?;
        write_out(self.output, self.words.text()).map_err(SinkError::Io)
    }
}

/// Writes a text, which is empty then.
fn write_out<W: Write>(output: &mut W, text: &mut String) -> io::Result<()> {
    output.write_all(text.as_bytes())?;
    text.clear();
    output.flush()
}
