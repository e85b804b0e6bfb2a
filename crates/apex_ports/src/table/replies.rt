//! The reply of a row, by what its partition sees.
ghost use Rattle.std.specs.Prelude.{◌≡◌, ◌<◌, ◌≤◌, length, IfSome, MatchOption};
ghost use Rattle.apex_types.specs.declared.reply.Reply.TheVariants.{Code, Received};
ghost use Rattle.apex_types.specs.declared.return_code.ReturnCode.TheVariants.{NotAvailable};
ghost use Rattle.apex_ports.specs.Noted.{IsSampleBy, reply_by};
ghost use Rattle.apex_ports.specs.ReplyTable.{reply_of, oldest_reply, last_reply, queuing_status_reply, sampling_status_reply};
ghost use Rattle.apex_ports.specs.Seen.{queuing_port, sampling_port};
ghost use Rattle.apex_ports.specs.Services.{message_length};

use crate::noted::{ReplyRef, SampleRef};
use crate::rows::Row;
use crate::table::lookup::{configured_port, queuing_port, sampling_port};
use crate::view::View;
use apex_module::Config;
use apex_types::{MESSAGE_LIMIT, Message, Reply, ReturnCode, Validity};

/// The reply of a row.
pub fn reply<V: View>(view: &V, config: &Config, partition: usize, row: Row) -> Reply
    requires partition { partition < length config.now.partitions }
    requires kept { V.is_kept config.now view.now }
    ensures { let here = V.seen config.now view.now partition in
        result ≡ reply_of config.now here partition row }
{
    match row {
        Row::Idle => Reply::NotMade,
        Row::Refused(refusal) => Reply::Code(refusal.code()),
        Row::Created { id } => Reply::Id(id),
        Row::Identified { id } => Reply::Id(id),
        Row::Sent => Reply::Code(ReturnCode::NoError),
        Row::OldestReceived { id } => oldest_reply(view, config, partition, id),
        Row::Cleared => Reply::Code(ReturnCode::NoError),
        Row::QueuingStatus { id } => queuing_status(view, config, partition, id).to_reply(),
        Row::Written => Reply::Code(ReturnCode::NoError),
        Row::LastRead { id, validity } => last_reply(view, config, partition, id, validity),
        Row::SamplingStatus { id } => sampling_status(view, config, partition, id).to_reply(),
        Row::ModeSet => Reply::Code(ReturnCode::NoError),
    }
}

/// The oldest message that waits on the channel of a port, created or not.
pub fn oldest_at<'a, V: View>(
    view: &'a V,
    config: &Config,
    partition: usize,
    id: u32,
) -> Option<&'a [u8]>
    requires kept { V.is_kept config.now view.now }
    ensures reply { let waiting = (V.seen config.now view.now partition).waiting id in
        MatchOption result (oldest_reply waiting ≡ Code NotAvailable)
        (λ message. oldest_reply waiting ≡ Received message.now) }
    ensures short { IfSome result (λ message. length message.now ≤ MESSAGE_LIMIT) }
{
    let port = configured_port(config, partition, id)?;
    view.oldest(config, partition, id, port)
}

/// The sample written last into the channel of a port, created or not.
pub fn sample_at<'a, V: View>(
    view: &'a V,
    config: &Config,
    partition: usize,
    id: u32,
) -> Option<SampleRef<'a>>
    requires kept { V.is_kept config.now view.now }
    ensures sample { IsSampleBy ((V.seen config.now view.now partition).sample id) result }
    ensures short { IfSome result (λ sample. length sample.message.now ≤ MESSAGE_LIMIT) }
{
    let port = configured_port(config, partition, id)?;
    view.sample(config, partition, id, port)
}

fn oldest_reply<V: View>(view: &V, config: &Config, partition: usize, id: u32) -> Reply
    requires kept { V.is_kept config.now view.now }
    ensures { let here = V.seen config.now view.now partition in
        result ≡ oldest_reply (here.waiting id) }
{
    match oldest_at(view, config, partition, id) {
        Some(message) => Reply::Received(Message::from_bytes(message).unwrap()),
        None => Reply::Code(ReturnCode::NotAvailable),
    }
}

// The reply with the sample written last, with this validity.
fn last_reply<V: View>(
    view: &V,
    config: &Config,
    partition: usize,
    id: u32,
    validity: Validity,
) -> Reply
    requires kept { V.is_kept config.now view.now }
    ensures { let here = V.seen config.now view.now partition in
        result ≡ last_reply validity (here.sample id) }
{
    match sample_at(view, config, partition, id) {
        Some(sample) => Reply::Read {
            message: Message::from_bytes(sample.message).unwrap(),
            validity,
        },
        None => Reply::Code(ReturnCode::NoAction),
    }
}

/// The reply to GET_QUEUING_PORT_STATUS.
pub(crate) fn queuing_status<V: View>(
    view: &V,
    config: &Config,
    partition: usize,
    id: u32,
) -> ReplyRef<'static>
    requires partition { partition < length config.now.partitions }
    requires kept { V.is_kept config.now view.now }
    ensures reply { let here = V.seen config.now view.now partition in
        let port = queuing_port config.now here partition id in
        reply_by result ≡ queuing_status_reply config.now here id port }
    ensures short { message_length (reply_by result) ≤ MESSAGE_LIMIT }
{
    let Some(port) = queuing_port(view, config, partition, id) else {
        return ReplyRef::Code(ReturnCode::InvalidParam);
    };
    let channel = config.channel(port.channel);
    ReplyRef::QueuingStatus {
        waiting: view.waiting_count(config, partition, id, port) as u32,
        depth: channel.kind.depth(),
        size: channel.size,
        direction: port.direction,
    }
}

/// The reply to GET_SAMPLING_PORT_STATUS.
pub(crate) fn sampling_status<V: View>(
    view: &V,
    config: &Config,
    partition: usize,
    id: u32,
) -> ReplyRef<'static>
    requires partition { partition < length config.now.partitions }
    requires kept { V.is_kept config.now view.now }
    ensures reply { let here = V.seen config.now view.now partition in
        let port = sampling_port config.now here partition id in
        reply_by result ≡ sampling_status_reply config.now here id port }
    ensures short { message_length (reply_by result) ≤ MESSAGE_LIMIT }
{
    match sampling_port(view, config, partition, id) {
        Some(port) => ReplyRef::SamplingStatus {
            refresh: port.kind.refresh(),
            size: config.channel(port.channel).size,
            direction: port.direction,
            last: view.last_validity(config, partition, id),
        },
        None => ReplyRef::Code(ReturnCode::InvalidParam),
    }
}
