//! The mistakes of a trace or a script in words, a line for each.
use crate::expected::push_expected;
use crate::faulty_lines::{FaultyLines, script_faults, trace_faults};
use crate::hint::hint_of;
use crate::known::{Caller, FaultyLine};
use crate::quoted::push_quoted;
use apex_module::Config;
use apex_refusals::{MISTAKE_LIMIT, push_more};
use apex_texts::{LineFault, next_line};
use std::alloc::{AllocError, Global};

/// A line for each faulty line of a trace in the file, at most `MISTAKE_LIMIT`, and then one with the number of the
/// others. A trace without faults has none. The only error is a failed allocation.
pub fn trace_mistakes(
    alloc: Global,
    file: &str,
    config: &Config,
    trace: &[u8],
) -> Result<String, AllocError> {
    let faults = trace_faults(alloc, config, trace, MISTAKE_LIMIT)?;
    let source = Source {
        file,
        config,
        caller: Caller::Trace,
        text: trace,
    };
    source.mistakes(alloc, &faults)
}

/// The same for the script of a partition, whose number counts from 0.
pub fn script_mistakes(
    alloc: Global,
    file: &str,
    config: &Config,
    partition: usize,
    script: &[u8],
) -> Result<String, AllocError> {
    let faults = script_faults(alloc, script, MISTAKE_LIMIT)?;
    let source = Source {
        file,
        config,
        caller: Caller::Script(partition),
        text: script,
    };
    source.mistakes(alloc, &faults)
}

/// A text with mistakes, and the file that it is in.
#[derive(Clone, Copy)]
struct Source<'a> {
    file: &'a str,
    config: &'a Config,
    caller: Caller,
    text: &'a [u8],
}

impl Source<'_> {
    /// The lines of the first faults, and the number of the others.
    fn mistakes(&self, alloc: Global, faults: &FaultyLines) -> Result<String, AllocError> {
        let mut mistakes = String::new(alloc);
        let mut rest = self.text;
        let mut passed = 0;
        for place in &faults.first {
            let (line, after) = line_ahead(rest, place.line.saturating_sub(passed));
            let faulty = FaultyLine {
                config: self.config,
                caller: self.caller,
                line,
                place: *place,
            };
            push_mistake(alloc, &mut mistakes, self.file, &faulty)?;
            rest = after;
            passed = place.line;
        }
        push_more(&mut mistakes, faults.count.saturating_sub(MISTAKE_LIMIT))?;
        Ok(mistakes)
    }
}

/// The line with this number in a text, from 1, and the text after it.
pub(crate) fn line_ahead(text: &[u8], number: usize) -> (&[u8], &[u8]) {
    let mut line: &[u8] = &[];
    let mut rest = text;
    for before in 0..number {
        if let Some((next, after)) = next_line(rest) {
            line = next;
            rest = after;
        }
    }
    (line, rest)
}

/// Writes the line of a mistake: the file, the line and the column, the fault, what was found and what was expected.
fn push_mistake(
    alloc: Global,
    text: &mut String,
    file: &str,
    faulty: &FaultyLine<'_>,
) -> Result<(), AllocError> {
    let place = faulty.place;
    let words = place.fault.words();
    write!(text, "{file}:{}:{}: {words}: ", place.line, place.column)?;
    push_found(text, faulty)?;
    text.push_str("; expected ")?;
    push_expected(alloc, text, faulty.config, place.expected)?;
    if let Some(hint) = hint_of(alloc, faulty)? {
        write!(text, "; {hint}")?;
    }
    text.push_str("\n")
}

/// Writes what was found at the fault.
pub(crate) fn push_found(text: &mut String, faulty: &FaultyLine<'_>) -> Result<(), AllocError> {
    if let LineFault::NotAscii = faulty.place.fault {
        let byte = faulty.faulty_byte();
        return write!(text, "the byte 0x{byte:02x}");
    }
    match faulty.faulty_word() {
        Some(word) => push_quoted(text, word),
        None => text.push_str("the line ends"),
    }
}
