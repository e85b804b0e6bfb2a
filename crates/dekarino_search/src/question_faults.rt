//! Why words are no question, in words.
use crate::end_questions::COUNTS;
use crate::unfinished::Unfinished;
use apex_module::Config;
use apex_refusals::nearest;
use apex_texts::Service;
use apex_words::refusals_of;
use dekarino_texts::LineNumbers;
use std::alloc::{AllocError, Global};

/// Why words are no question `NAME:LINE = REPLY` or `CHANNEL COUNT OP NUMBER`.
#[derive(Clone, Copy)]
pub(crate) enum QuestionFault<'a> {
    /// They have another form.
    Form,
    /// They have another form than `NAME:LINE = REPLY`.
    CallForm,
    /// No partition has the name.
    NoPartition {
        name: &'a str,
    },
    /// No call is on the line of the partition's script.
    NoCall {
        name: &'a str,
        partition: usize,
        line: usize,
    },
    /// These words are no reply to a call of the service.
    NoReply {
        said: &'a str,
        service: Service,
    },
    /// No row of the service gives the reply.
    NotGiven {
        service: Service,
    },
    /// No queuing channel has the name.
    NoChannel {
        name: &'a str,
    },
    /// The channel of the name is a sampling channel.
    NoCounts {
        name: &'a str,
    },
    /// They have another sign than those of comparisons.
    NoComparison,
    /// This word is no count.
    NoCount {
        said: &'a str,
    },
    /// This word is no number.
    NoNumber {
        said: &'a str,
    },
}

/// The words with which a reply begins; `made` follows the last.
const FIRST_WORDS: [&str; 8] = [
    "NO_ERROR",
    "NO_ACTION",
    "NOT_AVAILABLE",
    "INVALID_PARAM",
    "INVALID_CONFIG",
    "INVALID_MODE",
    "TIMED_OUT",
    "not",
];

/// The error of words with a fault, with what was expected.
pub(crate) fn question_error<'a>(
    alloc: Global,
    config: &Config,
    lines: &[LineNumbers],
    words: &'a str,
    fault: QuestionFault<'a>,
) -> Unfinished<'a> {
    match reason_of(alloc, config, lines, fault) {
        Ok(reason) => Unfinished::BadArgument { words, reason },
        Err(error) => Unfinished::from(error),
    }
}

fn reason_of(
    alloc: Global,
    config: &Config,
    lines: &[LineNumbers],
    fault: QuestionFault<'_>,
) -> Result<String, AllocError> {
    let mut text = String::new(alloc);
    match fault {
        QuestionFault::Form => text.push_str(
            "expected NAME:LINE = REPLY or CHANNEL COUNT OP NUMBER",
        )?,
        QuestionFault::CallForm => text.push_str("expected NAME:LINE = REPLY")?,
        QuestionFault::NoPartition { name } => {
            write!(text, "no partition is called {name}; there are")?;
            push_partitions(&mut text, config)?;
        }
        QuestionFault::NoCall {
            name,
            partition,
            line,
        } => {
            write!(
                text,
                "there is no call on line {line} of the script of {name}, "
            )?;
            push_lines(&mut text, lines.get(partition))?;
        }
        QuestionFault::NoReply { said, service } => {
            write!(text, "{said} is no reply; ")?;
            match meant(alloc, said)? {
                Some(word) => write!(text, "did you mean {word}?")?,
                None => push_replies(&mut text, service)?,
            }
        }
        QuestionFault::NotGiven { service } => {
            text.push_str("no row of the reply table gives that; ")?;
            push_replies(&mut text, service)?;
        }
        QuestionFault::NoChannel { name } => {
            write!(text, "no queuing channel is called {name}; there are")?;
            push_channels(&mut text, config)?;
        }
        QuestionFault::NoCounts { name } => write!(
            text,
            "{name} is a sampling channel; only queuing channels have counts"
        )?,
        QuestionFault::NoComparison => text.push_str(
            "expected one of =, <=, >=, < and > between the count and the number",
        )?,
        QuestionFault::NoCount { said } => push_no_count(alloc, &mut text, said)?,
        QuestionFault::NoNumber { said } => write!(text, "{said} is no whole number")?,
    }
    Ok(text)
}

/// Writes the names of the partitions, each after a space.
fn push_partitions(text: &mut String, config: &Config) -> Result<(), AllocError> {
    for p in 0..config.partitions() {
        let mark = if p == 0 { "" } else { "," };
        write!(text, "{mark} {}", config.partition_name(p).text())?;
    }
    Ok(())
}

/// Writes the names of the queuing channels, each after a space.
fn push_channels(text: &mut String, config: &Config) -> Result<(), AllocError> {
    let mut mark = "";
    for c in 0..config.channels() {
        let channel = config.channel(c);
        if channel.kind.is_queuing() {
            write!(text, "{mark} {}", channel.name.text())?;
            mark = ",";
        }
    }
    if mark.is_empty() {
        text.push_str(" none")?;
    }
    Ok(())
}

/// Writes that a word is no count, and what it was meant to be.
fn push_no_count(alloc: Global, text: &mut String, said: &str) -> Result<(), AllocError> {
    write!(text, "{said} is no count; ")?;
    match nearest(alloc, said.as_bytes(), &COUNTS)? {
        Some(word) => write!(text, "did you mean {word}?"),
        None => text.push_str("there are accepted, received, cleared and waiting"),
    }
}

/// Writes on which lines the calls of a script are.
fn push_lines(text: &mut String, lines: Option<&LineNumbers>) -> Result<(), AllocError> {
    let numbers = match lines {
        Some(of) => of.numbers.as_slice(),
        None => &[],
    };
    match (numbers.first(), numbers.last()) {
        (Some(first), Some(last)) => write!(text, "whose calls are on lines {first} to {last}"),
        _ => text.push_str("which has no calls"),
    }
}

/// The word that the first word was meant to be, if it is another.
fn meant(alloc: Global, said: &str) -> Result<Option<&'static str>, AllocError> {
    let word = match said.split_once(' ') {
        Some((word, _)) => word,
        None => said,
    };
    match nearest(alloc, word.as_bytes(), &FIRST_WORDS)? {
        Some(known) if known == word => Ok(None),
        Some("not") => Ok(Some("not made")),
        meant => Ok(meant),
    }
}

/// Writes the replies that the rows of a service give, each once.
fn push_replies(text: &mut String, service: Service) -> Result<(), AllocError> {
    write!(text, "{} can get not made", service.word())?;
    let refusals = refusals_of(service);
    for (i, refusal) in refusals.iter().enumerate() {
        let code = refusal.code();
        if refusals.iter().position(|first| first.code() == code) == Some(i) {
            write!(text, ", {}", code.word())?;
        }
    }
    write!(text, " or {}", accepted_reply(service))
}

/// The reply to an accepted call of the service, with words in upper case for its values.
fn accepted_reply(service: Service) -> &'static str {
    match service {
        Service::CreateSampling
        | Service::CreateQueuing
        | Service::SamplingId
        | Service::QueuingId => "NO_ERROR id NUMBER",
        Service::WriteSampling | Service::SendQueuing | Service::ClearQueuing | Service::SetMode =>
            { "NO_ERROR" }
        Service::ReceiveQueuing => "NO_ERROR message MESSAGE",
        Service::ReadSampling => "NO_ERROR message MESSAGE VALIDITY",
        Service::QueuingStatus => {
            "NO_ERROR waiting COUNT depth DEPTH size SIZE DIRECTION processes 0"
        }
        Service::SamplingStatus => "NO_ERROR refresh PERIOD size SIZE DIRECTION last VALIDITY",
    }
}
