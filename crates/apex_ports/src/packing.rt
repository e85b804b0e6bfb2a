//! Writes numbers and messages behind bytes.
ghost use Rattle.std.specs.Prelude.{◌≡◌, ◌^◌, ◌<◌, ◌≤◌, ◌++◌, length, OnOk};
ghost use Rattle.apex_ports.specs.Packed.{packed_number, packed_count, packed_message};

use apex_types::MESSAGE_LIMIT;
use std::alloc::{AllocError, Allocator};

/// Writes a number in 8 bytes.
pub(crate) fn put_number<A: Allocator>(
    bytes: &mut Vec<u8, A>,
    number: u64,
) -> Result<(), AllocError>
    ensures written { OnOk result (bytes.new.items ≡ bytes.old.items ++ packed_number number) }
    ensures small { number < 2 ^ 64 }
{
    bytes.extend_from_slice(&number.to_le_bytes())
}

/// Writes a number of messages in 4 bytes.
pub(crate) fn put_count<A: Allocator>(bytes: &mut Vec<u8, A>, count: u32) -> Result<(), AllocError>
    ensures { OnOk result (bytes.new.items ≡ bytes.old.items ++ packed_count count) }
{
    bytes.extend_from_slice(&count.to_le_bytes())
}

/// Writes a message behind its length, which takes 2 bytes.
pub(crate) fn put_message<A: Allocator>(
    bytes: &mut Vec<u8, A>,
    message: &[u8],
) -> Result<(), AllocError>
    requires { length message.now ≤ MESSAGE_LIMIT }
    ensures { OnOk result (bytes.new.items ≡ bytes.old.items ++ packed_message message.now) }
{
    let length = message.len() as u16;
    bytes.extend_from_slice(&length.to_le_bytes())?;
    bytes.extend_from_slice(message)
}
