//! The words of the standard for services and numbers.
use apex_texts::{SERVICES, Service};
use apex_words::standard_name;

/// A word of the standard, and its number.
pub(crate) type Numbered = (&'static str, u32);

/// PORT_DIRECTION_TYPE.
pub(crate) const DIRECTIONS: [Numbered; 2] = [("SOURCE", 0), ("DESTINATION", 1)];

/// QUEUING_DISCIPLINE_TYPE.
pub(crate) const DISCIPLINES: [Numbered; 2] = [("FIFO", 0), ("PRIORITY", 1)];

/// OPERATING_MODE_TYPE.
pub(crate) const MODES: [Numbered; 4] = [
    ("IDLE", 0),
    ("COLD_START", 1),
    ("WARM_START", 2),
    ("NORMAL", 3),
];

/// RETURN_CODE_TYPE.
pub(crate) const CODES: [Numbered; 7] = [
    ("NO_ERROR", 0),
    ("NO_ACTION", 1),
    ("NOT_AVAILABLE", 2),
    ("INVALID_PARAM", 3),
    ("INVALID_CONFIG", 4),
    ("INVALID_MODE", 5),
    ("TIMED_OUT", 6),
];

/// VALIDITY_TYPE.
pub(crate) const VALIDITIES: [Numbered; 2] = [("INVALID", 0), ("VALID", 1)];

/// The service, or the two, that a word other than a call word names.
#[derive(Clone, Copy)]
pub(crate) enum OtherWord {
    One(Service),
    Either(Service, Service),
}

/// Words for services that are not call words.
static OTHER_WORDS: [(&str, OtherWord); 14] = [
    (
        "create",
        OtherWord::Either(Service::CreateSampling, Service::CreateQueuing),
    ),
    (
        "create-port",
        OtherWord::Either(Service::CreateSampling, Service::CreateQueuing),
    ),
    (
        "id",
        OtherWord::Either(Service::SamplingId, Service::QueuingId),
    ),
    (
        "get-id",
        OtherWord::Either(Service::SamplingId, Service::QueuingId),
    ),
    (
        "port-id",
        OtherWord::Either(Service::SamplingId, Service::QueuingId),
    ),
    (
        "status",
        OtherWord::Either(Service::SamplingStatus, Service::QueuingStatus),
    ),
    (
        "get-status",
        OtherWord::Either(Service::SamplingStatus, Service::QueuingStatus),
    ),
    ("set-mode", OtherWord::One(Service::SetMode)),
    ("write-sampling", OtherWord::One(Service::WriteSampling)),
    ("read-sampling", OtherWord::One(Service::ReadSampling)),
    ("send-queuing", OtherWord::One(Service::SendQueuing)),
    ("receive-queuing", OtherWord::One(Service::ReceiveQueuing)),
    ("recv", OtherWord::One(Service::ReceiveQueuing)),
    ("clear-queuing", OtherWord::One(Service::ClearQueuing)),
];

/// The services that such a word names, ignoring case and with `_` for `-`.
pub(crate) fn services_called(word: &[u8]) -> Option<OtherWord> {
    let (_, services) = OTHER_WORDS
        .iter()
        .copied()
        .find(|entry| is_same_word(word, entry.0.as_bytes()))?;
    Some(services)
}

/// Whether two words are the same, ignoring case and with `_` for `-`.
fn is_same_word(word: &[u8], known: &[u8]) -> bool {
    word.len() == known.len()
        && word.iter().zip(known.iter()).all(|(one, other)| {
            one.eq_ignore_ascii_case(other) || *one == b'_' && *other == b'-'
        })
}

/// The service with this name in the standard, ignoring case.
pub(crate) fn service_of_standard(word: &[u8]) -> Option<Service> {
    SERVICES.iter().copied().find(|service| standard_name(*service)
        .as_bytes()
        .eq_ignore_ascii_case(word))
}

/// The entry for this word, ignoring case.
pub(crate) fn numbered(words: &[Numbered], word: &[u8]) -> Option<Numbered> {
    words
        .iter()
        .copied()
        .find(|entry| entry.0.as_bytes().eq_ignore_ascii_case(word))
}
