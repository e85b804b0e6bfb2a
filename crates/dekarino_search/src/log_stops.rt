//! Why a log isn't judged to its end.
use crate::mistakes::{mistake_of_line, mistakes_of_log};
use crate::places::push_place;
use crate::unfinished::Unfinished;
use apex_files::Refusal;
use apex_files::files::FileFault;
use apex_logs::{FaultyLine, LINE_LIMIT};
use apex_mistakes::log_faults;
use apex_module::Config;
use apex_texts::Fault;
use dekarino_command_line::Form;
use dekarino_texts::JudgeError;
use std::alloc::{AllocError, Global};
use std::io;
use std::io::ErrorKind;

/// The number of the fault of a line that is too long.
pub const TOO_LONG: u32 = 13;

/// Refuses a log with a faulty line, with its mistakes.
pub(crate) fn refuse_faulty<'a>(
    alloc: Global,
    file: &str,
    config: &Config,
    log: &[u8],
    form: Form,
) -> Result<(), Unfinished<'a>> {
    let faults = log_faults(alloc, config, log, 1)?;
    let Some(place) = faults.first.first() else {
        return Ok(());
    };
    let (line, fault) = (place.line, place.fault);
    let mistakes = mistakes_of_log(alloc, file, config, log, form)?;
    Err(Unfinished::FaultyLogWithText {
        text: mistakes.into_bytes(),
        faulty: FaultyLine { line, fault },
    })
}

/// Why the lines of a file aren't judged to their end, by the line that was read last and the number of calls before it.
pub(crate) fn unfinished<'a>(
    alloc: Global,
    file: &'a str,
    config: &Config,
    form: Form,
    line: &[u8],
    calls: usize,
    why: JudgeError,
) -> Unfinished<'a> {
    match why {
        JudgeError::Line(faulty) => {
            match mistake_of_line(alloc, file, config, faulty, line, calls > 0, form) {
                Ok(mistake) => Unfinished::FaultyLogWithText {
                    text: mistake.into_bytes(),
                    faulty,
                },
                Err(refused) => Unfinished::from(refused),
            }
        }
        JudgeError::TooLong { line } => match mistake_of_length(alloc, file, line, form) {
            Ok(mistake) => Unfinished::TooLongLine {
                text: mistake.into_bytes(),
                line,
            },
            Err(refused) => Unfinished::from(refused),
        },
        JudgeError::Read(error) => unreadable(file, error),
        JudgeError::TooManyLines => unreadable(file, io::Error::from(ErrorKind::Other)),
        JudgeError::OutOfMemory => Unfinished::from(Fault::Memory),
        JudgeError::Write(error) => match error.kind() {
            ErrorKind::BrokenPipe => Unfinished::OutputClosed,
            _ => Unfinished::Refused(Refusal::Output),
        },
    }
}

/// A file that can't be read.
pub(crate) fn unreadable<'a>(path: &'a str, error: io::Error) -> Unfinished<'a> {
    match FileFault::from(error) {
        FileFault::Unreadable(obstacle) => Unfinished::Refused(Refusal::File { path, obstacle }),
        FileFault::OutOfMemory => Unfinished::from(Fault::Memory),
    }
}

/// The mistake of a line that is too long.
fn mistake_of_length(
    alloc: Global,
    file: &str,
    line: usize,
    form: Form,
) -> Result<String, AllocError> {
    let mut mistake = String::new(alloc);
    let column = LINE_LIMIT + 1;
    write!(
        mistake,
        "{file}:{line}:{column}: line too long: more than {LINE_LIMIT} bytes; expected the end of the line"
    )?;
    match form {
        Form::Text => {
            mistake.push('\n')?;
            Ok(mistake)
        }
        Form::Json => {
            let mut text = String::new(alloc);
            push_place(alloc, &mut text, Some(TOO_LONG), mistake.as_str())?;
            Ok(text)
        }
    }
}
