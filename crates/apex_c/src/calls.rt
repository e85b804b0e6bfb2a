//! The names, the messages and the calls that C gives, or the numbers that say why they are none.
ghost use Rattle.std.specs.Prelude.{◌≡◌};
ghost use Rattle.apex_types.specs.Name.{name_of};
ghost use Rattle.apex_ports.specs.Noted.{call_by};
ghost use Rattle.apex_c.specs.Asked.{entry_call, message_asked, name_asked};

use crate::answer::{NO_NAME, TOO_LONG};
use apex_ports::CallRef;
use apex_types::{Call, MESSAGE_LIMIT, Message, Name};

/// The name that the bytes are, or `NO_NAME`.
pub(crate) fn name_in(bytes: &[u8]) -> Result<Name, u32>
    ensures { result ≡ name_asked (name_of bytes.now) }
{
    match Name::from_bytes(bytes) {
        Ok(name) => Ok(name),
        Err(_) => Err(NO_NAME),
    }
}

/// The message that the bytes are, or `TOO_LONG`.
pub(crate) fn message_in(bytes: &[u8]) -> Result<Message, u32>
    ensures { result ≡ message_asked bytes.now }
{
    match Message::from_bytes(bytes) {
        Ok(message) => Ok(message),
        Err(_) => Err(TOO_LONG),
    }
}

/// The call as an entry of a log has it, or `TOO_LONG` if none has its message.
pub(crate) fn entry_call(call: CallRef<'_>) -> Result<Call, u32>
    ensures { result ≡ entry_call (call_by call.entry) }
{
    match call {
        CallRef::WriteSampling { message, .. } | CallRef::SendQueuing { message, .. }
            if message.len() > MESSAGE_LIMIT => { Err(TOO_LONG) }
        _ => Ok(call.to_call()),
    }
}
