//! Messages and names that are stored, each at an index.
ghost use Rattle.std.specs.Prelude.{◌≡◌, ◌≤◌, ◌<◌, ◌∷◌, ◌++◌, [], length, IfOk, OnOk, OnErr};
ghost use Rattle.apex_threads.specs.PackedCalls.{stored_at};

use apex_ports::StoredMessages;
use apex_types::{MESSAGE_LIMIT, Message, Name};
use std::alloc::{AllocError, Allocator};

/// Stores a message and returns its index.
pub(crate) fn push_message<A: Allocator>(
    messages: &mut StoredMessages<A>,
    message: &Message,
) -> Result<usize, AllocError>
    ensures message { IfOk result (λ index. stored_at messages.new index ≡ message.now) }
    ensures within { IfOk result (λ index. index < length messages.new) }
    ensures pushed { OnOk result (messages.new ≡ messages.old ++ message.now ∷ []) }
    ensures refused { OnErr result (messages.new ≡ messages.old) }
{
    let index = messages.len();
    messages.push(message.bytes())?;
    Ok(index)
}

/// Stores a name and returns its index.
pub(crate) fn push_name<A: Allocator>(
    names: &mut Vec<Name, A>,
    name: &Name,
) -> Result<usize, AllocError>
    ensures name { IfOk result (λ index. stored_at names.new.items index ≡ name.now) }
    ensures within { IfOk result (λ index. index < length names.new.items) }
    ensures pushed { OnOk result (names.new.items ≡ names.old.items ++ name.now ∷ []) }
    ensures refused { OnErr result (names.new.items ≡ names.old.items) }
{
    let index = names.len();
    names.push(name.copy())?;
    Ok(index)
}

/// The message at an index.
pub(crate) fn message_at<A: Allocator>(messages: &StoredMessages<A>, index: usize) -> &[u8]
    requires { index < length messages.now }
    ensures message { result.now ≡ stored_at messages.now index }
    ensures short { length result.now ≤ MESSAGE_LIMIT }
{
    match messages.get(index) {
        Some(message) => message,
        None => unreachable!(),
    }
}
