//! The channel that a call reads or changes.
ghost use Rattle.std.specs.Prelude.{◌≡◌};
ghost use Rattle.apex_orders.specs.Commuting.{channel_named, id_in, is_change};

use apex_module::Config;
use apex_types::Call;

/// The identifier of the port by which the call reads or changes a channel.
pub fn id_in(call: &Call) -> Option<u32>
    ensures { result ≡ id_in call.now }
{
    match call {
        Call::WriteSampling { id, .. } => Some(*id),
        Call::ReadSampling { id } => Some(*id),
        Call::SendQueuing { id, .. } => Some(*id),
        Call::ReceiveQueuing { id } => Some(*id),
        Call::QueuingStatus { id } => Some(*id),
        Call::ClearQueuing { id } => Some(*id),
        _ => None,
    }
}

/// Whether the call can put a message into a channel or take one from it.
pub(crate) fn is_change(call: &Call) -> bool
    ensures { result ≡ is_change call.now }
{
    match call {
        Call::WriteSampling { .. } => true,
        Call::SendQueuing { .. } => true,
        Call::ReceiveQueuing { .. } => true,
        Call::ClearQueuing { .. } => true,
        _ => false,
    }
}

/// The channel of the port that the call names.
pub(crate) fn channel_named(config: &Config, p: usize, call: &Call) -> Option<usize>
    ensures { result ≡ channel_named config.now p call.now }
{
    let id = id_in(call)?;
    let port = config.port(p, id)?;
    Some(port.channel)
}
