//! What a logged reply shows if the log is believed.
ghost use Rattle.std.specs.Prelude.{◌≡◌};
ghost use Rattle.apex_judge.specs.Evidence.{mode_of_made, mode_by_change, mode_by_creation, mode_shown, created_by_creation, created_by_id, created_by_call, created_by_message, created_shown, last_shown, written_at};

use apex_types::{Call, Message, Mode, Moment, Reply, ReturnCode, Validity};

/// The mode that the reply to a call shows, if the partition was in this mode.
pub(crate) fn mode_shown(present: Mode, call: &Call, reply: &Reply) -> Mode
    ensures { result ≡ mode_shown present call.now reply.now }
{
    if let Reply::NotMade = reply {
        return Mode::Idle;
    }
    match call {
        Call::CreateSampling { .. } | Call::CreateQueuing { .. } => {
            mode_by_creation(present, reply)
        }
        Call::SetMode { mode } => match reply {
            Reply::Code(code) => mode_by_change(present, Mode::from_number(*mode), *code),
            _ => mode_of_made(present),
        },
        _ => mode_of_made(present),
    }
}

// No call is made in IDLE.
fn mode_of_made(present: Mode) -> Mode
    ensures { result ≡ mode_of_made present }
{
    match present {
        Mode::Idle => Mode::Normal,
        _ => present,
    }
}

// By the code of a change to a mode.
fn mode_by_change(present: Mode, asked: Option<Mode>, code: ReturnCode) -> Mode
    ensures { result ≡ mode_by_change present asked code }
{
    match (asked, code) {
        (_, ReturnCode::NoError) => present,
        (Some(Mode::Normal), ReturnCode::NoAction) => Mode::Normal,
        (Some(Mode::WarmStart), ReturnCode::InvalidMode) => Mode::ColdStart,
        _ => mode_of_made(present),
    }
}

// By the reply to a creation: no port is created in NORMAL.
fn mode_by_creation(present: Mode, reply: &Reply) -> Mode
    ensures { result ≡ mode_by_creation present reply.now }
{
    match reply {
        Reply::Id(_) => match present {
            Mode::Idle | Mode::Normal => Mode::ColdStart,
            _ => present,
        },
        Reply::Code(ReturnCode::InvalidMode) => Mode::Normal,
        _ => mode_of_made(present),
    }
}

/// Whether the reply to a call about a port shows that it is created, or that it isn't.
pub(crate) fn created_shown(call: &Call, reply: &Reply) -> Option<bool>
    ensures { result ≡ created_shown call.now reply.now }
{
    match call {
        Call::CreateSampling { .. } | Call::CreateQueuing { .. } => created_by_creation(reply),
        Call::SamplingId { .. } | Call::QueuingId { .. } => created_by_id(reply),
        Call::WriteSampling { message, .. } => created_by_message(message, reply),
        Call::SendQueuing { message, .. } => created_by_message(message, reply),
        Call::SetMode { .. } => None,
        _ => created_by_call(reply),
    }
}

// By the reply to a creation.
fn created_by_creation(reply: &Reply) -> Option<bool>
    ensures { result ≡ created_by_creation reply.now }
{
    match reply {
        Reply::Code(ReturnCode::NoAction) => Some(true),
        Reply::Code(ReturnCode::InvalidConfig) => Some(false),
        _ => None,
    }
}

// By the reply to a call that asks for the port's identifier.
fn created_by_id(reply: &Reply) -> Option<bool>
    ensures { result ≡ created_by_id reply.now }
{
    match reply {
        Reply::Id(_) => Some(true),
        Reply::Code(_) => Some(false),
        _ => None,
    }
}

// By the reply to a call by the port's identifier.
fn created_by_call(reply: &Reply) -> Option<bool>
    ensures { result ≡ created_by_call reply.now }
{
    match reply {
        Reply::NotMade => None,
        Reply::Code(ReturnCode::InvalidParam) => Some(false),
        _ => Some(true),
    }
}

// By the reply to such a call with a message. Of an empty message INVALID_PARAM says nothing of the port.
fn created_by_message(message: &Message, reply: &Reply) -> Option<bool>
    ensures { result ≡ created_by_message message.now reply.now }
{
    if message.bytes().is_empty() {
        return None;
    }
    created_by_call(reply)
}

/// The validity of a port's last read, by a status.
pub(crate) fn last_shown(reply: &Reply) -> Option<Validity>
    ensures { result ≡ last_shown reply.now }
{
    match reply {
        Reply::SamplingStatus { last, .. } => Some(*last),
        _ => None,
    }
}

/// When a sample was written that is read now.
pub(crate) fn written_at(now: Moment, validity: Validity) -> Moment
    ensures { result ≡ written_at now validity }
{
    match validity {
        Validity::Valid => now,
        Validity::Invalid => Moment(0),
    }
}
