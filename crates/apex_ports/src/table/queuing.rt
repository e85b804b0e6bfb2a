//! What SEND_QUEUING_MESSAGE, RECEIVE_QUEUING_MESSAGE and CLEAR_QUEUING_PORT decide.
ghost use Rattle.std.specs.Prelude.{◌≡◌, ◌<◌, ◌≤◌, length, IfOk, MatchResult};
ghost use Rattle.apex_types.specs.declared.reply.Reply.TheVariants.{Received};
ghost use Rattle.apex_ports.specs.declared.rows.Row.TheVariants as row;
ghost use Rattle.apex_ports.specs.Decisions.{Decides};
ghost use Rattle.apex_ports.specs.ReplyTable.{send_row, receive_row, clear_row, oldest_reply};
ghost use Rattle.apex_ports.specs.Seen.{queuing_port};

use crate::rows::Refusal;
use crate::table::lookup::queuing_port;
use crate::view::View;
use apex_module::Config;
use apex_types::{Direction, MESSAGE_LIMIT};

/// Whether SEND_QUEUING_MESSAGE is accepted, or why it is refused.
pub(crate) fn send_row<V: View>(
    view: &V,
    config: &Config,
    partition: usize,
    id: u32,
    message: &[u8],
) -> Result<(), Refusal>
    requires partition { partition < length config.now.partitions }
    requires kept { V.is_kept config.now view.now }
    ensures { let here = V.seen config.now view.now partition in
        let port = queuing_port config.now here partition id in
        Decides (send_row config.now here id port message.now) row.Sent result }
{
    let Some(port) = queuing_port(view, config, partition, id) else {
        return Err(Refusal::NoSuchPort);
    };
    let channel = config.channel(port.channel);
    let length = message.len();
    if length == 0 {
        return Err(Refusal::EmptyMessage);
    }
    if length > channel.size as usize {
        return Err(Refusal::MessageTooLong);
    }
    if let Direction::Destination = port.direction {
        return Err(Refusal::NotSource);
    }
    if view.waiting_count(config, partition, id, port) == channel.kind.depth() as usize {
        return Err(Refusal::QueueFull);
    }
    Ok(())
}

/// The message that RECEIVE_QUEUING_MESSAGE gives, or why it is refused.
pub(crate) fn received_message<'a, V: View>(
    view: &'a V,
    config: &Config,
    partition: usize,
    id: u32,
) -> Result<&'a [u8], Refusal>
    requires partition { partition < length config.now.partitions }
    requires kept { V.is_kept config.now view.now }
    ensures row { let here = V.seen config.now view.now partition in
        let given = receive_row here id (queuing_port config.now here partition id) in
        MatchResult result (λ _. given ≡ row.OldestReceived id)
        (λ refusal. given ≡ row.Refused refusal) }
    ensures message { let waiting = (V.seen config.now view.now partition).waiting id in
        IfOk result (λ message. oldest_reply waiting ≡ Received message.now) }
    ensures short { IfOk result (λ message. length message.now ≤ MESSAGE_LIMIT) }
{
    let Some(port) = queuing_port(view, config, partition, id) else {
        return Err(Refusal::NoSuchPort);
    };
    if let Direction::Source = port.direction {
        return Err(Refusal::NotDestination);
    }
    match view.oldest(config, partition, id, port) {
        Some(message) => Ok(message),
        None => Err(Refusal::QueueEmpty),
    }
}

/// Whether CLEAR_QUEUING_PORT is accepted, or why it is refused.
pub(crate) fn clear_row<V: View>(
    view: &V,
    config: &Config,
    partition: usize,
    id: u32,
) -> Result<(), Refusal>
    requires partition { partition < length config.now.partitions }
    requires kept { V.is_kept config.now view.now }
    ensures { let here = V.seen config.now view.now partition in
        let port = queuing_port config.now here partition id in
        Decides (clear_row port) row.Cleared result }
{
    let Some(port) = queuing_port(view, config, partition, id) else {
        return Err(Refusal::NoSuchPort);
    };
    match port.direction {
        Direction::Source => Err(Refusal::NotDestination),
        Direction::Destination => Ok(()),
    }
}
