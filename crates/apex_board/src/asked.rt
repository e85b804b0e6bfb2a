//! The queuing port by which a call sends, receives or clears.
ghost use Rattle.std.specs.Prelude.{◌≡◌, length};
ghost use Rattle.apex_board.specs.Asked.{asked_port, IsBelow};

use apex_module::Config;
use apex_types::{Call, Direction};

/// The channel of the queuing port that a call uses, and the port's direction.
#[derive(Clone, Copy)]
pub(crate) struct AskedPort {
    pub(crate) channel: usize,
    pub(crate) direction: Direction,
}

/// The queuing port that a partition's call sends to, receives from or clears, if the call does so and the port exists.
pub(crate) fn asked_port(config: &Config, partition: usize, call: &Call) -> Option<AskedPort>
    ensures port { result ≡ asked_port config.now partition call.now }
    ensures within { IsBelow (length config.now.channels) result }
{
    let id = match call {
        Call::SendQueuing { id, .. } => *id,
        Call::ReceiveQueuing { id } => *id,
        Call::ClearQueuing { id } => *id,
        _ => return None,
    };
    let port = config.port(partition, id)?;
    Some(AskedPort {
        channel: port.channel,
        direction: port.direction,
    })
}
