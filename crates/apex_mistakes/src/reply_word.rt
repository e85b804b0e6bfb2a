//! What a reply has at each of its words.
use crate::expected::expected_words;
use crate::known::word_at;
use apex_texts::{Expected, Service};
use std::alloc::{AllocError, Global};

/// What a reply has at a word.
#[derive(Clone, Copy)]
pub(crate) enum ReplyWord {
    /// `not`, or a return code.
    Reply,
    /// The word for the data after `NO_ERROR`, or nothing.
    Data,
    /// This word.
    Word(&'static str),
    /// What an argument of a call can be too.
    Argument(Expected),
    /// A count of waiting messages.
    Waiting,
    /// A direction's word.
    Direction,
    /// The validity of a sample, or nothing.
    SampleValidity,
    /// The validity of the last sample.
    LastValidity,
    /// Nothing.
    End,
}

const ID: [ReplyWord; 1] = [ReplyWord::Argument(Expected::Identifier)];

const MESSAGE: [ReplyWord; 2] = [
    ReplyWord::Argument(Expected::Message),
    ReplyWord::SampleValidity,
];

const QUEUING_STATUS: [ReplyWord; 8] = [
    ReplyWord::Waiting,
    ReplyWord::Word("depth"),
    ReplyWord::Argument(Expected::Depth),
    ReplyWord::Word("size"),
    ReplyWord::Argument(Expected::Size),
    ReplyWord::Direction,
    ReplyWord::Word("processes"),
    ReplyWord::Word("0"),
];

const SAMPLING_STATUS: [ReplyWord; 6] = [
    ReplyWord::Argument(Expected::Refresh),
    ReplyWord::Word("size"),
    ReplyWord::Argument(Expected::Size),
    ReplyWord::Direction,
    ReplyWord::Word("last"),
    ReplyWord::LastValidity,
];

const DATA_WORDS: [&str; 4] = ["id", "message", "waiting", "refresh"];

/// The words for the kinds of data in a reply.
pub(crate) fn data_words<'a>(alloc: Global) -> Result<Vec<&'a str>, AllocError> {
    let mut words = Vec::new(alloc);
    for word in &DATA_WORDS {
        words.push(*word)?;
    }
    Ok(words)
}

/// What a reply has at the word with this number, from 1, after those before it.
pub(crate) fn reply_word_at(reply: &[u8], number: usize) -> ReplyWord {
    if number < 2 {
        ReplyWord::Reply
    } else if is_word(reply, 1, "NO_ERROR") {
        data_word_at(reply, number)
    } else if is_word(reply, 1, "not") && number == 2 {
        ReplyWord::Word("made")
    } else {
        ReplyWord::End
    }
}

fn data_word_at(reply: &[u8], number: usize) -> ReplyWord {
    let Some(behind) = number.checked_sub(3) else {
        return ReplyWord::Data;
    };
    let word = if is_word(reply, 2, "id") {
        ID.get(behind)
    } else if is_word(reply, 2, "message") {
        MESSAGE.get(behind)
    } else if is_word(reply, 2, "waiting") {
        QUEUING_STATUS.get(behind)
    } else {
        SAMPLING_STATUS.get(behind)
    };
    word.copied().unwrap_or(ReplyWord::End)
}

fn is_word(reply: &[u8], number: usize, known: &str) -> bool {
    match word_at(reply, number) {
        Some(word) => word == known.as_bytes(),
        None => false,
    }
}

impl ReplyWord {
    /// The same in a reply to a call of the service, if that is known: no more words if such a reply has none.
    pub(crate) fn of_service(self, service: Option<Service>) -> ReplyWord {
        match (self, service) {
            (
                ReplyWord::Data,
                Some(
                    Service::WriteSampling
                    | Service::SendQueuing
                    | Service::ClearQueuing
                    | Service::SetMode,
                ),
            ) => ReplyWord::End,
            (ReplyWord::SampleValidity, Some(Service::ReceiveQueuing)) => ReplyWord::End,
            _ => self,
        }
    }
}

/// Writes what was expected of the reply to a call of the service.
pub(crate) fn push_reply_word(
    text: &mut String,
    word: ReplyWord,
    service: Option<Service>,
) -> Result<(), AllocError> {
    match word {
        ReplyWord::Data => {
            text.push_str(data_words_of(service))?;
            text.push_str(expected_words(Expected::EndOfLine))
        }
        ReplyWord::SampleValidity => {
            text.push_str("VALID or INVALID, or ")?;
            text.push_str(expected_words(Expected::EndOfLine))
        }
        ReplyWord::Reply => text.push_str(REPLIES),
        ReplyWord::Word(word) => text.push_str(word),
        ReplyWord::Argument(expected) => text.push_str(expected_words(expected)),
        ReplyWord::Waiting => text.push_str("how many messages wait, a whole number"),
        ReplyWord::Direction => text.push_str("SOURCE or DESTINATION"),
        ReplyWord::LastValidity => text.push_str("VALID or INVALID"),
        ReplyWord::End => text.push_str(expected_words(Expected::EndOfLine)),
    }
}

const REPLIES: &str =
    "a reply: not made, NO_ERROR, NO_ACTION, NOT_AVAILABLE, INVALID_PARAM, INVALID_CONFIG, INVALID_MODE, TIMED_OUT";

/// The words that can follow `NO_ERROR` in a reply to a call of the service, before the end of the line.
fn data_words_of(service: Option<Service>) -> &'static str {
    match service {
        Some(
            Service::CreateSampling
            | Service::CreateQueuing
            | Service::SamplingId
            | Service::QueuingId,
        ) => "id, or ",
        Some(Service::ReadSampling | Service::ReceiveQueuing) => "message, or ",
        Some(Service::QueuingStatus) => "waiting, or ",
        Some(Service::SamplingStatus) => "refresh, or ",
        _ => "id, message, waiting, refresh, or ",
    }
}
