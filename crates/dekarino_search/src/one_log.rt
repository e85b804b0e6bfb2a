//! Where the replies of a recorded log depart from the standard.
use crate::configuration::read_config;
use crate::json_departures::DepartureObjects;
use crate::log_stops::{refuse_faulty, unfinished, unreadable};
use crate::outcome::Outcome;
use crate::unfinished::Unfinished;
use apex_files::{Opener, read_file};
use apex_logs::{LineReader, LineSource, TextLines};
use apex_module::Config;
use dekarino_command_line::Form;
use dekarino_texts::{
    DepartureCounts, DepartureText, DepartureWords, JudgeError, Reading, WrittenDepartures,
    judge_lines,
};
use std::alloc::Global;
use std::io::Write;

/// Writes the departures of the log in a file, on the configuration in a file, as they are found; with `first` the reading
/// ends after the first of them. A faulty line ends the reading too, and the error has its mistake. With `whole` the log is
/// read first, and nothing is written if it has a faulty line.
pub fn departures_of_log<'a, O: Opener, W: Write>(
    alloc: Global,
    opener: &O,
    config: &'a str,
    log: &'a str,
    first: bool,
    whole: bool,
    reading: Reading,
    form: Form,
    output: &mut W,
) -> Result<Outcome, Unfinished<'a>> {
    let config = read_config(alloc, opener, config, form)?;
    if !whole {
        let reader = match opener.open(log) {
            Ok(reader) => reader,
            Err(error) => return Err(unreadable(log, error)),
        };
        let mut lines = LineReader::new(alloc, reader);
        return departures_of_lines(alloc, config, log, first, reading, form, &mut lines, output);
    }
    let bytes = read_file(alloc, opener, log)?;
    let text = bytes.as_slice();
    refuse_faulty(alloc, log, &config, text, form)?;
    let mut lines = TextLines { text };
    departures_of_lines(alloc, config, log, first, reading, form, &mut lines, output)
}

/// Writes the departures of lines as they are found. The outcome has the counts.
fn departures_of_lines<'a, L: LineSource, W: Write>(
    alloc: Global,
    config: Config,
    file: &'a str,
    first: bool,
    reading: Reading,
    form: Form,
    lines: &mut L,
    output: &mut W,
) -> Result<Outcome, Unfinished<'a>> {
    let mut last = LastLine {
        line: Vec::new(alloc),
        counts: DepartureCounts {
            calls: 0,
            departures: 0,
        },
    };
    let judged = config.copy()?;
    let text = match form {
        Form::Text => {
            let words = DepartureText::new(alloc);
            judge(
                alloc, judged, file, first, reading, words, lines, &mut last, output,
            )
        }
        Form::Json => {
            let words = DepartureObjects::new(alloc);
            judge(
                alloc, judged, file, first, reading, words, lines, &mut last, output,
            )
        }
    };
    match text {
        Ok(text) if last.counts.departures == 0 => Ok(Outcome::Done(text.into_bytes())),
        Ok(text) => Ok(Outcome::Negative(text.into_bytes())),
        Err(why) => {
            let calls = last.counts.calls;
            Err(unfinished(alloc, file, &config, form, last.line.as_slice(), calls, why))
        }
    }
}

/// The line of a log that was read last, and what was counted.
#[derive(Drop)]
struct LastLine {
    line: Vec<u8>,
    counts: DepartureCounts,
}

/// Writes the departures of lines in words, and answers the words of the counts.
fn judge<L: LineSource, D: DepartureWords + Drop, W: Write>(
    alloc: Global,
    config: Config,
    file: &str,
    first: bool,
    reading: Reading,
    words: D,
    lines: &mut L,
    last: &mut LastLine,
    output: &mut W,
) -> Result<String, JudgeError> {
    let most = if first { 1 } else { usize::MAX };
    let LastLine { line, counts } = last;
    let mut sink = WrittenDepartures { words, output };
    judge_lines(
        alloc, config, file, reading, most, lines, line, counts, &mut sink,
    )?;
    let WrittenDepartures { mut words, .. } = sink;
    words.push_counts(*counts)?;
    Ok(words.into_text())
}
